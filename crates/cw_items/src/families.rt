//! Where things stand in their families, and how many words each area has.
ghost use Rattle.std.specs.Prelude.{◌≡◌, ◌≤◌, ◌++◌, ◌∷◌, [], IfOk, OnOk, drop};
ghost use Rattle.cw_table.specs.Rows.{item_at};
ghost use Rattle.cw_items.specs.Families.{count_in, frame_of_owner, frame_of, own_site, site_on, site_by, site_of, nothing_known, end_of, growth};
ghost use Rattle.cw_items.specs.Families.{area_with, with_count, with_area, with_place, with_site, with_thing, has_room, thing_judged, things_judged, all_known};

use crate::counts::Counts;
use crate::thing::{Base, Owner, Sort, Thing, capped, is_fixed};
use cw_data::{Fault, Rule, keep_unless};
use cw_table::table::Table;
use cw_word::NoMemory;
use std::alloc::Global;
use std::marker::Model;

/// Where something stands: the thing that begins its family, by its token, its place in the family, and the frame of the family, by the
/// token of its procedure's name.
#[derive(Clone, Copy)]
pub struct Site {
    pub root: u32,
    pub place: u32,
    pub frame: Option<u32>,
}

/// What is known of the things so far.
#[derive(Drop)]
pub struct Known {
    sites: Table<Site>,
    extents: Counts,
    frames: Counts,
    rest: u32,
}

impl Model for Known {
    ghost use Rattle.cw_items.specs.Families.{Known as Sites};

    ghost Value = { Sites };

    ghost view = { λ k. record { sites = k.sites; extents = k.extents; frames = k.frames; rest = k.rest } };
}

fn frame_of_owner(owner: &Option<Owner>) -> Option<u32>
    ensures { result ≡ frame_of_owner owner.now }
{
    match owner {
        None => None,
        Some(owner) => if owner.recursive {
            Some(owner.token)
        } else {
            None
        },
    }
}

fn frame_of(sort: &Sort, owner: &Option<Owner>) -> Option<u32>
    ensures { result ≡ frame_of sort.now owner.now }
{
    if is_fixed(sort) {
        None
    } else {
        frame_of_owner(owner)
    }
}

fn own_site(thing: &Thing) -> Site
    ensures { result ≡ own_site thing.now }
{
    Site {
        root: thing.at.token,
        place: 0,
        frame: frame_of(&thing.sort, &thing.owner),
    }
}

fn site_on(under: &Option<Site>, base: &Base, thing: &Thing) -> Site
    ensures { result ≡ site_on under.now base.now thing.now }
{
    match under {
        None => own_site(thing),
        Some(site) => Site {
            root: site.root,
            place: capped(u64::from(site.place) + u64::from(base.word)),
            frame: site.frame,
        },
    }
}

fn site_of(sites: &Table<Site>, thing: &Thing) -> Site
    ensures { result ≡ site_of sites.now thing.now }
{
    match &thing.base {
        None => own_site(thing),
        Some(base) => {
            let under = sites.find(base.token).copied();
            site_on(&under, base, thing)
        }
    }
}

fn end_of(thing: &Thing, site: &Site) -> u32
    ensures { result ≡ end_of thing.now site.now }
{
    capped(u64::from(site.place) + u64::from(thing.words))
}

impl Known {
    pub fn new(alloc: Global) -> Known
        ensures { result ≡ nothing_known }
    {
        Known {
            sites: Table::new(alloc),
            extents: Counts::new(alloc),
            frames: Counts::new(alloc),
            rest: 0,
        }
    }

    /// Where each thing stands, by its token.
    pub fn sites(&self) -> &Table<Site>
        ensures { result.now ≡ self.now.sites }
    {
        &self.sites
    }

    fn growth(&self, site: &Site, end: u32) -> u32
        ensures { result ≡ growth self.now site.now end }
    {
        end.saturating_sub(self.extents.of(site.root))
    }

    fn area_with(&self, frame: &Option<u32>, more: u32) -> u32
        ensures { result ≡ area_with self.now frame.now more }
    {
        match frame {
            None => capped(u64::from(self.rest) + u64::from(more)),
            Some(token) => capped(u64::from(self.frames.of(*token)) + u64::from(more)),
        }
    }

    // Counts the words of a site whose family reaches so far, where its area then has so many words.
    fn count(&mut self, site: &Site, extent: u32, words: u32) -> Result<(), NoMemory>
        ensures { OnOk result (self.new
            ≡ with_area self.old self.old.sites (with_count self.old.extents site.now.root extent)
            site.now.frame words) }
    {
        self.extents.set(site.root, extent)?;
        match site.frame {
            None => {
                self.rest = words;
                Ok(())
            }
            Some(token) => self.frames.set(token, words),
        }
    }

    // The same with one more site.
    fn with_place(self, token: u32, site: &Site) -> Result<Known, NoMemory>
        ensures { IfOk result (λ k. k ≡ with_place self token site.now) }
    {
        let Known {
            sites,
            extents,
            frames,
            rest,
        } = self;
        let sites = sites.with(token, *site)?;
        Ok(Known {
            sites,
            extents,
            frames,
            rest,
        })
    }

    fn with_site(self, thing: &Thing, site: &Site) -> Result<Known, NoMemory>
        ensures { IfOk result (λ k. k ≡ with_site self thing.now site.now) }
    {
        let end = end_of(thing, site);
        let words = self.area_with(&site.frame, self.growth(site, end));
        let extent = self.extents.of(site.root).max(end);
        let mut known = self;
        known.count(site, extent, words)?;
        known.with_place(thing.at.token, site)
    }

    fn has_room(&self, thing: &Thing, site: &Site) -> bool
        ensures { result ≡ has_room self.now thing.now site.now }
    {
        let end = end_of(thing, site);
        self.area_with(&site.frame, self.growth(site, end)) <= 32768
    }

    fn with_thing(self, thing: &Thing, first: &mut Option<Fault>) -> Result<Known, NoMemory>
        ensures known { IfOk result (λ k. k ≡ with_thing self thing.now) }
        ensures judged { OnOk result (first.new ≡ thing_judged self thing.now first.old) }
    {
        let site = site_of(&self.sites, thing);
        let room = self.has_room(thing, &site);
        keep_unless(room, Rule::TooMany, thing.at, first);
        self.with_site(thing, &site)
    }
}

/// Where things stand. Judges how many words they have.
pub fn judge_things(
    alloc: Global,
    things: &[Thing],
    first: &mut Option<Fault>,
) -> Result<Known, NoMemory>
    ensures known { IfOk result (λ k. k ≡ all_known nothing_known things.now) }
    ensures judged { OnOk result (first.new ≡ things_judged nothing_known things.now first.old) }
{
    let mut known = Known::new(alloc);
    for thing in things {
        known = known.with_thing(thing, first)?;
    }
    Ok(known)
}
