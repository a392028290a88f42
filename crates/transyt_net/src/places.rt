//! Numbers and the places at which they stand.

ghost use Rattle.std.specs.Prelude.{◌≡◌, IfOk, OnOk, OnErr, ◌++◌, ◌∷◌, [], false, is_some};
ghost use Rattle.std.specs.Option.{option_map};
ghost use Rattle.transyt_parts.specs.Valid.{is_fed, node_number, link_number};
ghost use Rattle.transyt_net.specs.Valid.{is_among, place_of, numbered, node_numbers, link_numbers, stages_at, feeds_at};

use indexmap::IndexSet;
use std::alloc::{AllocError, Global};
use std::marker::Model;
use transyt_parts::{Link, Node, has_feeder};

/// The card numbers of nodes or links, in card order. No two are equal.
#[derive(Drop)]
pub(crate) struct Numbers {
    numbers: IndexSet<u32>,
}

impl Model for Numbers {
    ghost use Rattle.std.specs.Prelude.{◌≡◌, ℕ, List, true};
    ghost use Rattle.transyt_net.specs.Valid.{all_differ};

    ghost Value = { List ℕ };

    ghost view = { λ n. n.numbers.keys };

    ghost invariant = { λ n. all_differ n.numbers.keys ≡ true };
}

impl Numbers {
    /// No numbers. It takes no memory; `alloc` serves the later calls.
    pub(crate) fn new(alloc: Global) -> Numbers
        ensures { result ≡ [] }
    {
        Numbers {
            numbers: IndexSet::new(alloc),
        }
    }

    /// Adds a number that isn't there yet. It fails only when out of memory, and changes nothing then.
    #[tactic(auto, using(crate::proofs::PlaceLaws::all_differ_push))]
    pub(crate) fn push(&mut self, number: u32) -> Result<(), AllocError>
        requires new { is_among self.old number ≡ false }
        ensures ok { OnOk result (self.new ≡ self.old ++ number ∷ []) }
        ensures err { OnErr result (self.new ≡ self.old) }
    {
        self.numbers.insert(number)?;
        Ok(())
    }

    /// The same numbers, with memory of their own.
    pub(crate) fn copy(&self, _alloc: Global) -> Result<Numbers, AllocError>
        ensures { IfOk result (λ copy. copy ≡ self.now) }
    {
        let numbers = self.numbers.clone()?;
        Ok(Numbers { numbers })
    }

    /// The place of a number, from 0.
    #[tactic(auto, using(crate::proofs::PlaceLaws::place_found))]
    pub(crate) fn place(&self, number: u32) -> Option<usize>
        ensures place { result ≡ place_of self.now number }
        ensures found { is_some result ≡ is_among self.now number }
    {
        self.numbers.get_index_of(&number)
    }

    /// Whether a number is there.
    pub(crate) fn contains(&self, number: u32) -> bool
        ensures { result ≡ is_among self.now number }
    {
        self.place(number).is_some()
    }
}

/// The node of a number.
#[tactic(auto, using(crate::proofs::PlaceLaws::found_at, crate::proofs::PlaceLaws::place_inside, crate::proofs::PlaceLaws::numbered_none))]
pub(crate) fn node_at<'a>(places: &Numbers, nodes: &'a [Node], number: u32) -> Option<&'a Node>
    requires { places.now ≡ node_numbers nodes.now }
    ensures { option_map (λ n. n.now) result ≡ numbered node_number nodes.now number }
{
    match places.place(number) {
        Some(place) => Some(&nodes[place]),
        None => None,
    }
}

/// The link of a number.
#[tactic(auto, using(crate::proofs::PlaceLaws::found_at, crate::proofs::PlaceLaws::place_inside, crate::proofs::PlaceLaws::numbered_none))]
pub(crate) fn link_at<'a>(places: &Numbers, links: &'a [Link], number: u32) -> Option<&'a Link>
    requires { places.now ≡ link_numbers links.now }
    ensures { option_map (λ l. l.now) result ≡ numbered link_number links.now number }
{
    match places.place(number) {
        Some(place) => Some(&links[place]),
        None => None,
    }
}

/// How many stages the node of a number has; 0 where there is no such node.
pub(crate) fn stages_at(places: &Numbers, nodes: &[Node], number: u32) -> usize
    requires { places.now ≡ node_numbers nodes.now }
    ensures { result ≡ stages_at nodes.now number }
{
    match node_at(places, nodes, number) {
        Some(owner) => owner.stages.len(),
        None => 0,
    }
}

/// Whether the link of a number has a feed with this feeder.
pub(crate) fn is_fed(places: &Numbers, links: &[Link], number: u32, feeder: u32) -> bool
    requires { places.now ≡ link_numbers links.now }
    ensures { result ≡ is_fed (feeds_at links.now number) feeder }
{
    match link_at(places, links, number) {
        Some(owner) => has_feeder(&owner.feeds, feeder),
        None => false,
    }
}
