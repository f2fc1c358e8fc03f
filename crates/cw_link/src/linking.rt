//! The image of objects.
ghost use Rattle.std.specs.Prelude.{◌≡◌, ◌≤◌, length, map, IfOk, IfErr};
ghost use Rattle.std.specs.List.{All};
ghost use Rattle.cw_comm.specs.Clashes.{Agree, agreed_of};
ghost use Rattle.cw_place.specs.Placement.{IsLimits};
ghost use Rattle.cw_place.specs.Segments.{HaveOwnFamilies};
ghost use Rattle.cw_link.specs.Contents.{contents_of};
ghost use Rattle.cw_link.specs.Presets.{NoPresetClash};
ghost use Rattle.cw_link.specs.LinkedImage.{faces_of, spaces_of, linked_map, linked_presets, linked_size, linked_code, words_from, without_last_zeros};
ghost use Rattle.cw_link.specs.LinkFaults.{HavePlace, HaveWords, IsFirstLinkFault, AnswersLink};
ghost use Rattle.cw_link.specs.Views.{IsOpened};

use crate::code::{linked_code, linked_size};
use crate::contents::{faces_of, names_of, spaces_of};
use crate::definitions::{addresses, all_definitions};
use crate::fault::LinkFault;
use crate::presets::fill_all;
use crate::words::data_words;
use cw_comm::{Agreed, Face, agree};
use cw_image::Image;
use cw_place::laws::agreed_segments;
use cw_place::{Space, place};
use cw_tmpl::base_code;
use cw_unit::layout::{Limits, Map};
use cw_view::View;
use cw_word::List;
use std::alloc::Global;

/// An image, and the storage map that it stands on.
#[derive(Drop)]
pub struct Linked {
    pub image: Image,
    pub map: Map,
}

// What objects agree on.
fn agreed_by(alloc: Global, views: &[View], limits: &Limits) -> Result<Agreed, LinkFault>
    requires { length views.now ≤ 200 }
    ensures agree { IfOk result (λ agreed. Agree (faces_of (map contents_of views.now)) × (agreed ≡ agreed_of (faces_of (map contents_of views.now)))) }
    ensures fault { IfErr result (IsFirstLinkFault (map contents_of views.now) limits.now) }
{
    let faces = faces_of(alloc, views)?;
    match agree(alloc, faces.as_slice()) {
        Ok(agreed) => Ok(agreed),
        Err(clash) => Err(LinkFault::from(clash)),
    }
}

// The storage map of objects that agree.
fn map_by(alloc: Global, views: &[View], agreed: &Agreed, limits: &Limits) -> Result<Map, LinkFault>
    requires few { length views.now ≤ 200 }
    requires opened { All IsOpened views.now }
    requires limits { IsLimits limits.now }
    requires agree { Agree (faces_of (map contents_of views.now)) }
    requires agreed { agreed.now ≡ agreed_of (faces_of (map contents_of views.now)) }
    ensures place { IfOk result (λ placed. HavePlace (map contents_of views.now) limits.now × (placed ≡ linked_map (map contents_of views.now))) }
    ensures fault { IfErr result (IsFirstLinkFault (map contents_of views.now) limits.now) }
{
    agreed_segments();
    let spaces = spaces_of(alloc, views)?;
    match place(alloc, agreed, spaces.as_slice(), limits) {
        Ok(map) => Ok(map),
        Err(fault) => Err(LinkFault::from(fault)),
    }
}

// The words that the data area begins with.
fn words_by(
    alloc: Global,
    views: &[View],
    placed: &Map,
    limits: &Limits,
) -> Result<List<u16>, LinkFault>
    requires few { length views.now ≤ 200 }
    requires limits { IsLimits limits.now }
    requires agree { Agree (faces_of (map contents_of views.now)) }
    requires place { HavePlace (map contents_of views.now) limits.now }
    requires placed { placed.now ≡ linked_map (map contents_of views.now) }
    ensures words { IfOk result (λ words. NoPresetClash (linked_presets (map contents_of views.now))
        × (words ≡ without_last_zeros (words_from 0 limits.now.area
        (linked_presets (map contents_of views.now))))) }
    ensures fault { IfErr result (IsFirstLinkFault (map contents_of views.now) limits.now) }
{
    let filled = fill_all(alloc, views, placed.homes.as_slice())?;
    if let Some((address, first, second)) = filled.clash {
        return Err(LinkFault::PresetClash {
            address,
            first,
            second,
        });
    }
    Ok(data_words(alloc, &filled, limits.area as usize)?)
}

// The code, with each relocated word filled.
fn code_by(
    alloc: Global,
    views: &[View],
    agreed: &Agreed,
    placed: &Map,
    limits: &Limits,
) -> Result<List<u8>, LinkFault>
    requires few { length views.now ≤ 200 }
    requires words { HaveWords (map contents_of views.now) limits.now }
    requires agreed { agreed.now ≡ agreed_of (faces_of (map contents_of views.now)) }
    requires placed { placed.now ≡ linked_map (map contents_of views.now) }
    ensures code { IfOk result (λ code. (linked_size (map contents_of views.now) ≤ 65536) × (code ≡ linked_code (map contents_of views.now) limits.now)) }
    ensures fault { IfErr result (IsFirstLinkFault (map contents_of views.now) limits.now) }
{
    let bytes = linked_size(views);
    if bytes > 65536 {
        return Err(LinkFault::CodeTooBig { bytes });
    }
    let numbers = agreed.of.as_slice();
    let names = agreed.names.as_slice().len();
    let start = base_code().len() as u32;
    let table = addresses(alloc, views, numbers, names, start)?;
    let definitions = all_definitions(alloc, table.as_slice(), numbers)?;
    let homes = placed.homes.as_slice();
    Ok(linked_code(alloc, views, limits, homes, definitions.as_slice())?)
}

/// The image of objects and their storage map, or the first reason why they do not link: that they do not agree; that
/// their storage has no place; that presets clash, of the lowest word; that the code takes over 65,536 bytes. The views
/// are those of opened objects, at most 200. The time is near linear in the number of records and names.
pub fn link(alloc: Global, views: &[View], limits: &Limits) -> Result<Linked, LinkFault>
    requires few { length views.now ≤ 200 }
    requires opened { All IsOpened views.now }
    requires limits { IsLimits limits.now }
    ensures { AnswersLink (map contents_of views.now) limits.now result }
{
    let agreed = agreed_by(alloc, views, limits)?;
    let map = map_by(alloc, views, &agreed, limits)?;
    let words = words_by(alloc, views, &map, limits)?;
    let code = code_by(alloc, views, &agreed, &map, limits)?;
    let names = names_of(alloc, views)?;
    let image = Image {
        area: limits.area as u16,
        frames: limits.frames as u16,
        depth: limits.depth,
        names,
        words,
        code,
    };
    Ok(Linked { image, map })
}
