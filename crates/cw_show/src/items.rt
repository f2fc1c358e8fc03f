//! Names, presets and data declarations.
ghost use Rattle.cw_show.specs.Adding.{Adds};
ghost use Rattle.cw_show.specs.ItemTokens.{name_tokens, names_tokens, place_tokens, places_tokens, assigned_tokens, preset_tokens, range_tokens};
ghost use Rattle.cw_show.specs.ItemTokens.{second_range_tokens, bounds_tokens, group_tokens, groups_tokens, unsigned_tokens, shape_tokens, two_ints};
ghost use Rattle.cw_show.specs.ItemTokens.{elem_tokens, elems_tokens, table_head, table_with, data_tokens, base_tokens, overlay_tokens};

use crate::leaf::{
    put_int, put_literal, put_name, put_number, put_octal, put_sign, put_sint, put_size, put_type,
};
use crate::lists::{Part, put_between};
use crate::token::{put_symbol, put_word};
use crate::written::Text;
use cw_lex::{Symbol, Word};
use cw_tree::items::{
    RawBase, RawBounds, RawData, RawElem, RawGroup, RawPlace, RawPresets, RawRange, RawTable,
};
use cw_tree::leaf::{RawInt, RawName, RawSint};

impl Part for RawName {
    ghost tokens = { name_tokens };

    fn put(&self, out: &mut Text) {
        put_name(out, &self.name);
    }
}

/// Adds names with commas between them.
pub fn put_names(out: &mut Text, names: &[RawName])
    ensures { Adds out.old out.new (names_tokens names.now) }
{
    put_between(out, Symbol::Comma, names);
}

impl Part for RawPlace {
    ghost tokens = { place_tokens };

    fn put(&self, out: &mut Text) {
        match self {
            RawPlace::Void(_) => {}
            RawPlace::Number(sign, number) => {
                put_sign(out, sign);
                put_number(out, &number.number);
            }
            RawPlace::Octal(sign, octal) => {
                put_sign(out, sign);
                put_octal(out, octal);
            }
            RawPlace::Literal(sign, literal) => {
                put_sign(out, sign);
                put_literal(out, literal.byte);
            }
        }
    }
}

fn put_places(out: &mut Text, places: &[RawPlace])
    ensures { Adds out.old out.new (places_tokens places.now) }
{
    put_between(out, Symbol::Comma, places);
}

fn put_assigned(out: &mut Text, presets: &Option<RawPresets>)
    ensures { Adds out.old out.new (assigned_tokens presets.now) }
{
    match presets {
        None => {}
        Some(presets) => {
            put_symbol(out, Symbol::Assign);
            put_places(out, presets.places.as_slice());
        }
    }
}

fn put_preset(out: &mut Text, presets: &Option<RawPresets>)
    ensures { Adds out.old out.new (preset_tokens presets.now) }
{
    match presets {
        None => {}
        Some(presets) => {
            put_word(out, Word::Preset);
            put_places(out, presets.places.as_slice());
        }
    }
}

fn put_range(out: &mut Text, range: &RawRange)
    ensures { Adds out.old out.new (range_tokens range.now) }
{
    put_sint(out, &range.lower);
    put_symbol(out, Symbol::Colon);
    put_sint(out, &range.upper);
}

fn put_second_range(out: &mut Text, range: &Option<RawRange>)
    ensures { Adds out.old out.new (second_range_tokens range.now) }
{
    match range {
        None => {}
        Some(range) => {
            put_symbol(out, Symbol::Comma);
            put_range(out, range);
        }
    }
}

/// Adds the bounds of an array in their brackets.
pub fn put_bounds(out: &mut Text, bounds: &RawBounds)
    ensures { Adds out.old out.new (bounds_tokens bounds.now) }
{
    put_symbol(out, Symbol::OpenSquare);
    put_range(out, &bounds.first);
    put_second_range(out, &bounds.second);
    put_symbol(out, Symbol::CloseSquare);
}

impl Part for RawGroup {
    ghost tokens = { group_tokens };

    fn put(&self, out: &mut Text) {
        put_names(out, self.names.as_slice());
        put_bounds(out, &self.bounds);
    }
}

fn put_groups(out: &mut Text, groups: &[RawGroup])
    ensures { Adds out.old out.new (groups_tokens groups.now) }
{
    put_between(out, Symbol::Comma, groups);
}

fn put_unsigned(out: &mut Text, unsigned: bool)
    ensures { Adds out.old out.new (unsigned_tokens unsigned) }
{
    if !unsigned {
        return;
    }
    put_word(out, Word::Unsigned);
}

fn put_shape(out: &mut Text, unsigned: bool, bits: &RawInt, scale: &RawSint)
    ensures { Adds out.old out.new (shape_tokens unsigned bits.now scale.now) }
{
    put_unsigned(out, unsigned);
    put_symbol(out, Symbol::Open);
    put_int(out, bits);
    put_symbol(out, Symbol::Comma);
    put_sint(out, scale);
    put_symbol(out, Symbol::Close);
}

fn put_two_ints(out: &mut Text, first: &RawInt, second: &RawInt)
    ensures { Adds out.old out.new (two_ints first.now second.now) }
{
    put_int(out, first);
    put_symbol(out, Symbol::Comma);
    put_int(out, second);
}

impl Part for RawElem {
    ghost tokens = { elem_tokens };

    fn put(&self, out: &mut Text) {
        match self {
            RawElem::Word(name, number_type, word) => {
                put_name(out, &name.name);
                put_type(out, number_type);
                put_int(out, word);
            }
            RawElem::Part {
                name,
                unsigned,
                bits,
                scale,
                word,
                bit,
            } => {
                put_name(out, &name.name);
                put_shape(out, *unsigned, bits, scale);
                put_two_ints(out, word, bit);
            }
        }
    }
}

fn put_elems(out: &mut Text, elems: &[RawElem])
    ensures { Adds out.old out.new (elems_tokens elems.now) }
{
    put_between(out, Symbol::Semicolon, elems);
}

fn put_table_head(out: &mut Text, table: &RawTable)
    ensures { Adds out.old out.new (table_head table.now) }
{
    put_word(out, Word::Table);
    put_name(out, &table.name.name);
    put_size(out, &table.size);
}

/// Adds a table with the presets in its brackets.
pub fn put_table(out: &mut Text, table: &RawTable, presets: &Option<RawPresets>)
    ensures { Adds out.old out.new (table_with table.now (preset_tokens presets.now)) }
{
    put_table_head(out, table);
    put_symbol(out, Symbol::OpenSquare);
    put_elems(out, table.elems.as_slice());
    put_preset(out, presets);
    put_symbol(out, Symbol::CloseSquare);
}

/// Adds a declaration of items.
pub fn put_data(out: &mut Text, items: &RawData)
    ensures { Adds out.old out.new (data_tokens items.now) }
{
    match items {
        RawData::Singles(number_type, names, presets) => {
            put_type(out, number_type);
            put_names(out, names.as_slice());
            put_assigned(out, presets);
        }
        RawData::Arrays(number_type, groups, presets) => {
            put_type(out, number_type);
            put_word(out, Word::Array);
            put_groups(out, groups.as_slice());
            put_assigned(out, presets);
        }
        RawData::Table(table, inside, behind) => {
            put_table(out, table, inside);
            put_assigned(out, behind);
        }
    }
}

fn put_base(out: &mut Text, base: &RawBase)
    ensures { Adds out.old out.new (base_tokens base.now) }
{
    match base {
        RawBase::Name(name) => put_name(out, &name.name),
        RawBase::One(name, index) => {
            put_name(out, &name.name);
            put_symbol(out, Symbol::OpenSquare);
            put_sint(out, index);
            put_symbol(out, Symbol::CloseSquare);
        }
        RawBase::Two(name, first, second) => {
            put_name(out, &name.name);
            put_symbol(out, Symbol::OpenSquare);
            put_sint(out, first);
            put_symbol(out, Symbol::Comma);
            put_sint(out, second);
            put_symbol(out, Symbol::CloseSquare);
        }
    }
}

/// Adds `OVERLAY base WITH data`.
pub fn put_overlay(out: &mut Text, base: &RawBase, items: &RawData)
    ensures { Adds out.old out.new (overlay_tokens base.now items.now) }
{
    put_word(out, Word::Overlay);
    put_base(out, base);
    put_word(out, Word::With);
    put_data(out, items);
}
