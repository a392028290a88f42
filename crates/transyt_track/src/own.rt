//! The own data of a link, and where its node and the links that it reads stand.

ghost use Rattle.std.specs.Prelude.{◌≡◌, ◌↔◌, ◌<◌, ◌++◌, length, map, option_to_list, IfOk, IfSome, IsTrue, OnOk};
ghost use Rattle.transyt_net.specs.Parts.{link_of};
ghost use Rattle.transyt_net.specs.Edits.{with_edit};
ghost use Rattle.transyt_net.specs.Valid.{IsValid, link_place};
ghost use Rattle.transyt_track.specs.Own.{change_of, flow_of, cruise_of, feeder_place, rule_place, node_place};
ghost use Rattle.transyt_track.specs.Own.{all_places, places_at, SameTimes, SameNumbers, HaveNode, HaveData};
ghost use Rattle.transyt_track.specs.Own.{DifferAt, read_places};
ghost use Rattle.transyt_track.specs.Front.{AreDownWhere, total_differs};

use crate::change::ChangedLink;
use std::alloc::{AllocError, Global};
use std::marker::Model;
use transyt_net::{Edit, Feed, GiveWay, Link, Net, Node, Stage};

/// Where the node of a link stands, and the links that it reads: its feeders in order, then the link to which it gives
/// way.
#[derive(Drop)]
pub(crate) struct Places {
    pub(crate) node: usize,
    read: Vec<usize>,
    feeder_count: usize,
}

impl Model for Places {
    ghost use Rattle.std.specs.Prelude.{◌≤◌, ◌+◌, length, take};
    ghost use Rattle.std.specs.List.{slice_get};
    ghost use Rattle.transyt_track.specs.Own.{PlacesValue};

    ghost Value = { PlacesValue };

    ghost view = { λ p. record {
      node = p.node;
      feeders = take p.feeder_count p.read.items;
      rule = slice_get p.read.items p.feeder_count;
    } };

    ghost invariant = { λ p. (p.feeder_count ≤ length p.read.items)
        × (length p.read.items ≤ p.feeder_count + 1) };
}

impl Places {
    /// The places of the feeders.
    pub(crate) fn feeders(&self) -> &[usize]
        ensures { result.now ≡ self.now.feeders }
    {
        &self.read[..self.feeder_count]
    }

    /// The places of all that the link reads.
    #[tactic(auto, using(crate::proofs::FlagLaws::whole))]
    pub(crate) fn read(&self) -> &[usize]
        ensures { result.now ≡ read_places self.now }
    {
        &self.read
    }
}

/// The link at a place.
pub(crate) fn link_at(net: &Net, link: usize) -> &Link
    requires { link < length net.now.links }
    ensures value { result.now ≡ link_of net.now link }
    ensures valid { IsValid net.now }
{
    &net.links()[link]
}

/// Whether stages have equal changes.
fn same_changes(before: &[Stage], after: &[Stage]) -> bool
    ensures { IsTrue result ↔ map change_of before.now ≡ map change_of after.now }
{
    match (before, after) {
        ([], []) => true,
        ([x, xs @ ..], [y, ys @ ..]) => x.change == y.change && same_changes(xs, ys),
        _ => false,
    }
}

/// Whether nodes have equal offsets and changes.
pub(crate) fn same_times(old: &Node, new: &Node) -> bool
    ensures { IsTrue result ↔ SameTimes old.now new.now }
{
    old.offset == new.offset && same_changes(&old.stages, &new.stages)
}

/// Whether feeds have equal flows and cruise times, one after another.
fn same_feeds(before: &[Feed], after: &[Feed]) -> bool
    ensures { IsTrue result ↔ (map flow_of before.now ≡ map flow_of after.now)
        × (map cruise_of before.now ≡ map cruise_of after.now) }
{
    match (before, after) {
        ([], []) => true,
        ([x, xs @ ..], [y, ys @ ..]) => {
            x.flow == y.flow && x.cruise == y.cruise && same_feeds(xs, ys)
        }
        _ => false,
    }
}

/// Whether links have equal flows, and feeds of equal flows and cruise times.
fn same_numbers(old: &Link, new: &Link) -> bool
    ensures { IsTrue result ↔ SameNumbers old.now new.now }
{
    old.entry == new.entry && old.saturation == new.saturation && same_feeds(&old.feeds, &new.feeds)
}

/// The place of the node whose times alone an edit alters, if it is an edit of one.
pub(crate) fn edited_node(net: &Net, e: &Edit) -> Option<usize>
    ensures { IfSome result (λ place. DifferAt place net.now (with_edit net.now e.now)) }
{
    match e {
        Edit::Offset { node, .. } | Edit::Change { node, .. } => net.node_place(*node),
        _ => None,
    }
}

/// Whether a link has equal own data in two networks of one shape, the total flows of its feeders apart. The flags of
/// nodes with equal offsets and changes are down.
#[tactic(auto, using(crate::proofs::PlaceLaws::node_inside))]
pub(crate) fn same_data(at: &ChangedLink<'_, '_>, node_changed: &[bool]) -> bool
    requires { AreDownWhere (HaveNode at.now.change.now.before.now at.now.change.now.after.now)
        (length at.now.change.now.after.now.nodes)
        node_changed.now }
    ensures { IsTrue result ↔ HaveData at.now.change.now.before.now at.now.change.now.after.now
        at.now.link }
{
    let old = link_at(at.change.before, at.link);
    let new = link_at(at.change.after, at.link);
    let places = at.places;
    !node_changed[places.node] && same_numbers(old, new)
}

/// Whether the total flow of a link differs. Nothing is summed up where `same` tells that its data are equal.
#[tactic(auto, using(crate::proofs::ChangeLaws::data_total))]
pub(crate) fn other_total(at: &ChangedLink<'_, '_>, same: bool) -> bool
    requires { IsTrue same ↔ HaveData at.now.change.now.before.now at.now.change.now.after.now
        at.now.link }
    ensures { result ≡ total_differs at.now.change.now.before.now at.now.change.now.after.now
        at.now.link }
{
    let change = at.change;
    !same && change.before.total_flow(at.link) != change.after.total_flow(at.link)
}

/// Whether a link has equal weights in two networks. Nothing is compared where the times of a node alone differ.
pub(crate) fn same_weights(at: &ChangedLink<'_, '_>) -> bool
    ensures { IsTrue result ↔ (link_of at.now.change.now.before.now at.now.link).weights
        ≡ (link_of at.now.change.now.after.now at.now.link).weights }
{
    let old = link_at(at.change.before, at.link);
    let new = link_at(at.change.after, at.link);
    at.change.node.is_some() || old.weights == new.weights
}

/// The place of a link's number; the first where there is no such link.
fn link_place(net: &Net, number: u32) -> usize
    ensures { result ≡ link_place net.now number }
{
    match net.link_place(number) {
        Some(place) => place,
        None => 0,
    }
}

/// The place of a node's number; the first where there is no such node.
fn node_place(net: &Net, number: u32) -> usize
    ensures { result ≡ node_place net.now number }
{
    match net.node_place(number) {
        Some(place) => place,
        None => 0,
    }
}

/// The places of the feeders, in order, with room for one more.
fn feeder_places(alloc: Global, net: &Net, feeds: &[Feed]) -> Result<Vec<usize>, AllocError>
    ensures { IfOk result (λ places. places.items ≡ map (feeder_place net.now) feeds.now) }
{
    let mut places = Vec::with_capacity(alloc, feeds.len() + 1)?;
    for feed in feeds {
        places.push(link_place(net, feed.feeder))?;
    }
    Ok(places)
}

/// Adds the place of the link to which a rule gives way, if there is one.
fn push_rule(net: &Net, rule: Option<GiveWay>, read: &mut Vec<usize>) -> Result<(), AllocError>
    ensures { OnOk result (read.new.items
        ≡ read.old.items ++ option_to_list (rule_place net.now rule)) }
{
    if let Some(way) = rule {
        read.push(link_place(net, way.other))?;
    }
    Ok(())
}

/// The places of a link.
fn places_of(alloc: Global, net: &Net, link: usize) -> Result<Places, AllocError>
    requires { link < length net.now.links }
    ensures { IfOk result (λ places. places ≡ places_at net.now link) }
{
    let at = link_at(net, link);
    let node = node_place(net, at.node);
    let mut read = feeder_places(alloc, net, &at.feeds)?;
    let feeder_count = read.len();
    push_rule(net, at.gives_way, &mut read)?;
    Ok(Places {
        node,
        read,
        feeder_count,
    })
}

/// The places of all links, in order.
pub(crate) fn all_places(alloc: Global, net: &Net) -> Result<Vec<Places>, AllocError>
    ensures { IfOk result (λ places. places.items ≡ all_places net.now) }
{
    let links = net.links().len();
    let mut places = Vec::with_capacity(alloc, links)?;
    for link in 0..links {
        places.push(places_of(alloc, net, link)?)?;
    }
    Ok(places)
}
