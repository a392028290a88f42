//! Before the first sweep: which links' own data differ, and which links are started anew.

ghost use Rattle.std.specs.Prelude.{◌≡◌, ◌≤◌, length};
ghost use Rattle.std.specs.List.{list_any};
ghost use Rattle.transyt_sweep.specs.Front.{AreEvaluation};
ghost use Rattle.transyt_track.specs.Own.{DifferAt, HaveData, HaveNode};
ghost use Rattle.transyt_track.specs.Change.{HasRoom, IsFront};
ghost use Rattle.transyt_track.specs.Front.{AreAt, AreFlags, AreFlagged, AreDownWhere, own_differs};

use crate::change::{Change, Front};
use crate::own::{other_total, same_data, same_times};
use crate::reading::any_changed;
use transyt_kept::Rows;

/// The most nodes that a network has.
const MOST_NODES: usize = 200;

/// Flags the nodes whose times differ.
fn flag_nodes(change: &Change<'_>, node_changed: &mut [bool])
    requires { length change.now.after.now.nodes ≤ length node_changed.old }
    ensures { AreDownWhere (HaveNode change.now.before.now change.now.after.now)
        (length change.now.after.now.nodes)
        node_changed.new }
{
    let old = change.before.nodes();
    let new = change.after.nodes();
    for place in 0..new.len() {
        node_changed[place] = !same_times(&old[place], &new[place]);
    }
}

/// Flags the links whose own data differ, the total flows of their feeders apart, and those whose total flow differs.
fn flag_links(change: &Change<'_>, front: &mut Front)
    requires { HasRoom change.now.after.now front.old }
    ensures flags { AreFlagged change.now.before.now change.now.after.now
        front.new.own_changed.items
        front.new.out_changed.items }
    ensures kept { front.new.kept ≡ front.old.kept }
    ensures scratch { front.new.scratch ≡ front.old.scratch }
{
    change.after.frame();
    let mut node_changed = [false; MOST_NODES];
    flag_nodes(change, &mut node_changed);
    for link in 0..change.after.links().len() {
        let at = change.link(link);
        let same = same_data(&at, &node_changed);
        front.own_changed[link] = !same;
        front.out_changed[link] = other_total(&at, same);
    }
}

/// Flags the links of a node, where its times differ: the own data of no others do.
fn flag_node(change: &Change<'_>, node: usize, own_changed: &mut Vec<bool>)
    requires node { DifferAt node change.now.before.now change.now.after.now }
    requires count { length own_changed.old.items ≡ length change.now.after.now.links }
    ensures count { length own_changed.new.items ≡ length change.now.after.now.links }
    ensures own { AreDownWhere (HaveData change.now.before.now change.now.after.now)
        (length change.now.after.now.links)
        own_changed.new.items }
{
    let changed = !same_times(&change.before.nodes()[node], &change.after.nodes()[node]);
    for link in 0..change.after.links().len() {
        let places = change.link(link).places;
        own_changed[link] = changed & (places.node == node);
    }
}

/// Flags the links whose own data differ, the total flows of their feeders apart, and those whose total flow differs:
/// none where the networks differ in the times of a node alone.
fn flag(change: &Change<'_>, front: &mut Front)
    requires { HasRoom change.now.after.now front.old }
    ensures flags { AreFlagged change.now.before.now change.now.after.now
        front.new.own_changed.items
        front.new.out_changed.items }
    ensures kept { front.new.kept ≡ front.old.kept }
    ensures scratch { front.new.scratch ≡ front.old.scratch }
{
    match change.node {
        Some(node) => {
            flag_node(change, node, &mut front.own_changed);
            front.out_changed.fill(false);
        }
        None => flag_links(change, front),
    }
}

/// Whether a flag is up. All are read: with no jump out, several are read at a time.
fn any_up(flags: &[bool]) -> bool
    ensures { result ≡ list_any (λ f. f) flags.now }
{
    let mut any = false;
    for flag in flags {
        any |= *flag;
    }
    any
}

/// Flags the links that have a feeder whose total flow differs; those whose other own data differ are flagged.
fn flag_fed(change: &Change<'_>, out_changed: &[bool], own_changed: &mut Vec<bool>)
    requires { AreFlagged change.now.before.now change.now.after.now
        own_changed.old.items out_changed.now }
    ensures { AreFlags (own_differs change.now.before.now change.now.after.now)
        (length change.now.after.now.links)
        own_changed.new.items }
{
    for link in 0..change.after.links().len() {
        let places = change.link(link).places;
        own_changed[link] |= any_changed(out_changed, places.feeders());
    }
}

/// Starts each link anew whose departures before the first sweep differ.
fn start_links(change: &Change<'_>, out_changed: &[bool], kept: &mut Rows)
    requires { AreAt change.now.before.now change.now.after.now 0 0 kept.old.now out_changed.now }
    ensures at { AreAt change.now.before.now change.now.after.now 1 0 kept.new.now
        out_changed.now }
    ensures marked { kept.new.marked ≡ kept.old.marked }
{
    let after = change.after;
    after.frame();
    for link in 0..after.links().len() {
        if out_changed[link] {
            kept.fill_out(0, link, after.per_step(after.total_flow(link)));
        }
    }
}

/// The front stands before the first sweep, with the links flagged whose own data differ and those that were started
/// anew. Where no total flow differs, no link is, and no feeder's total flow is read.
pub(crate) fn set_out(change: &Change<'_>, front: &mut Front)
    requires rows { AreEvaluation change.now.before.now front.old.kept.now }
    requires room { HasRoom change.now.after.now front.old }
    ensures front { IsFront change.now 1 0 front.new }
    ensures marked { front.new.kept.marked ≡ front.old.kept.marked }
{
    change.after.frame();
    flag(change, front);
    if any_up(&front.out_changed) {
        flag_fed(change, &front.out_changed, &mut front.own_changed);
        start_links(change, &front.out_changed, &mut front.kept);
    }
}
