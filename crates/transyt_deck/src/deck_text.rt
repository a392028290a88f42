//! The deck text of a network.
ghost use Rattle.std.specs.Prelude.{◌≡◌, ◌≤◌, ◌∷◌, [], ◌++◌, length, map, flat_map, All, IfSome};
ghost use Rattle.std.specs.Option.{option_map};
ghost use Rattle.transyt_io.specs.Lines.{lines};
ghost use Rattle.transyt_io.specs.Prints.{PrintsOn};
ghost use Rattle.transyt_parts.specs.Parts.{LinkValue};
ghost use Rattle.transyt_deck.specs.Cards.{node_cards, link_card, feed_cards};
ghost use Rattle.transyt_deck.specs.declared.card.Card.TheVariants as card;
ghost use Rattle.transyt_deck.specs.Cards.{rule_cards, plan_cards, card_line, cards_text, deck_cards, deck_text};
ghost use Rattle.transyt_deck.specs.Deck.{deck, Complete};

use crate::card_line::print_card;
use transyt_io::{Failed, LineBuffer, Sink};
use transyt_net::{ClimbPlan, Feed, Frame, Link, Net, Node, Stage};

/// Appends the deck text of a network, a card a line: `FORM 2`, the frame, each node with its stages, the links,
/// their feeds, their give-way rules, the climb plan if there is one, and `END`.
///
/// All numbers are those of the network as it stands. The text is this project's own. What `line` held is lost,
/// and what it holds afterwards is unspecified. The lines of the text, taken by a `CardReader`, are accepted to the
/// last, which is END, and give an equal network.
pub fn print_deck<K: Sink>(net: &Net, line: &mut LineBuffer, sink: &mut K) -> Result<(), Failed>
    ensures prints { PrintsOn K.written K.faults sink.old sink.new result (deck_text net.now) }
    ensures reads_back { deck (lines (deck_text net.now))
        ≡ Complete (length (deck_cards net.now)) net.now }
{
    print_frame(net.frame(), line, sink)?;
    print_nodes(net.nodes(), line, sink)?;
    print_linked(net.links(), net.plan(), line, sink)
}

/// Writes the FORM card, of form 2, and the CYCLE card.
fn print_frame<K: Sink>(frame: Frame, line: &mut LineBuffer, sink: &mut K) -> Result<(), Failed>
    ensures { PrintsOn K.written K.faults sink.old sink.new result
        (cards_text (card.Form 2 ∷ card.Cycle frame ∷ [])) }
{
    print_card(b"FORM", &[2], &[], line, sink)?;
    print_cycle(frame, line, sink)
}

/// Writes the CYCLE card of a frame.
fn print_cycle<K: Sink>(frame: Frame, line: &mut LineBuffer, sink: &mut K) -> Result<(), Failed>
    ensures { PrintsOn K.written K.faults sink.old sink.new result (card_line (card.Cycle frame)) }
{
    let numbers = [
        frame.cycle,
        frame.step_count,
        frame.sweeps,
        frame.period,
        frame.stop_penalty,
        frame.dispersion,
    ];
    print_card(b"CYCLE", &numbers, &[], line, sink)
}

/// Writes the NODE card of each node, with its STAGE cards after it.
fn print_nodes<K: Sink>(nodes: &[Node], line: &mut LineBuffer, sink: &mut K) -> Result<(), Failed>
    ensures { PrintsOn K.written K.faults sink.old sink.new result
        (flat_map (λ n. cards_text (node_cards n)) nodes.now) }
{
    for node in nodes {
        print_node(node, line, sink)?;
    }
    Ok(())
}

/// Writes the NODE card of a node and its STAGE cards.
fn print_node<K: Sink>(node: &Node, line: &mut LineBuffer, sink: &mut K) -> Result<(), Failed>
    ensures { PrintsOn K.written K.faults sink.old sink.new result
        (cards_text (node_cards node.now)) }
{
    print_number(node.number, node.offset, line, sink)?;
    print_stages(&node.stages, line, sink)
}

/// Writes the NODE card of a node with this card number and this offset in steps.
fn print_number<K: Sink>(
    number: u32,
    offset: u32,
    line: &mut LineBuffer,
    sink: &mut K,
) -> Result<(), Failed>
    ensures { PrintsOn K.written K.faults sink.old sink.new result
        (card_line (card.Node number offset)) }
{
    print_card(b"NODE", &[number, offset], &[], line, sink)
}

/// Writes the STAGE card of each stage.
fn print_stages<K: Sink>(
    stages: &[Stage],
    line: &mut LineBuffer,
    sink: &mut K,
) -> Result<(), Failed>
    ensures { PrintsOn K.written K.faults sink.old sink.new result
        (flat_map (λ s. card_line (card.Stage s)) stages.now) }
{
    for stage in stages {
        print_stage(*stage, line, sink)?;
    }
    Ok(())
}

/// Writes the STAGE card of a stage.
fn print_stage<K: Sink>(stage: Stage, line: &mut LineBuffer, sink: &mut K) -> Result<(), Failed>
    ensures { PrintsOn K.written K.faults sink.old sink.new result (card_line (card.Stage stage)) }
{
    let numbers = [stage.change, stage.intergreen, stage.least];
    print_card(b"STAGE", &numbers, &[], line, sink)
}

/// Writes the LINK card of each link, then their FEED cards, their YIELD cards, the STEPS card of a climb plan, if
/// there is one, and END.
fn print_linked<K: Sink>(
    links: &[Link],
    plan: Option<&ClimbPlan>,
    line: &mut LineBuffer,
    sink: &mut K,
) -> Result<(), Failed>
    requires stages { All (λ (l : LinkValue). length l.stages ≤ 8) links.now }
    requires sizes { IfSome plan (λ p. length p.now.sizes ≤ 16) }
    ensures { PrintsOn K.written K.faults sink.old sink.new result
        (flat_map (λ l. card_line (link_card l)) links.now
        ++ (flat_map (λ l. cards_text (feed_cards l)) links.now
        ++ (flat_map (λ l. cards_text (rule_cards l)) links.now
        ++ (cards_text (plan_cards (option_map (λ p. p.now) plan.entry)) ++ card_line card.End)))) }
{
    print_links(links, line, sink)?;
    print_feeds(links, line, sink)?;
    print_rules(links, line, sink)?;
    print_plan(plan, line, sink)?;
    print_card(b"END", &[], &[], line, sink)
}

/// Writes the LINK card of each link.
fn print_links<K: Sink>(links: &[Link], line: &mut LineBuffer, sink: &mut K) -> Result<(), Failed>
    requires { All (λ (l : LinkValue). length l.stages ≤ 8) links.now }
    ensures { PrintsOn K.written K.faults sink.old sink.new result
        (flat_map (λ l. card_line (link_card l)) links.now) }
{
    for link in links {
        print_link(link, line, sink)?;
    }
    Ok(())
}

/// Writes the LINK card of a link, of form 2.
fn print_link<K: Sink>(link: &Link, line: &mut LineBuffer, sink: &mut K) -> Result<(), Failed>
    requires { length link.now.stages ≤ 8 }
    ensures { PrintsOn K.written K.faults sink.old sink.new result
        (card_line (link_card link.now)) }
{
    let numbers = [
        link.number,
        link.node,
        link.entry,
        link.saturation,
        link.weights.delay,
        link.weights.stop,
        link.start_lag,
        link.end_lag,
    ];
    print_card(b"LINK", &numbers, &link.stages, line, sink)
}

/// Writes the FEED cards of each link.
fn print_feeds<K: Sink>(links: &[Link], line: &mut LineBuffer, sink: &mut K) -> Result<(), Failed>
    ensures { PrintsOn K.written K.faults sink.old sink.new result
        (flat_map (λ l. cards_text (feed_cards l)) links.now) }
{
    for link in links {
        print_feeds_of(link.number, &link.feeds, line, sink)?;
    }
    Ok(())
}

/// Writes the FEED card of each feed of the link with this card number.
fn print_feeds_of<K: Sink>(
    link: u32,
    feeds: &[Feed],
    line: &mut LineBuffer,
    sink: &mut K,
) -> Result<(), Failed>
    ensures { PrintsOn K.written K.faults sink.old sink.new result
        (flat_map (λ f. card_line (card.Feed link f)) feeds.now) }
{
    for feed in feeds {
        print_feed(link, *feed, line, sink)?;
    }
    Ok(())
}

/// Writes the FEED card of a feed of the link with this card number.
fn print_feed<K: Sink>(
    link: u32,
    feed: Feed,
    line: &mut LineBuffer,
    sink: &mut K,
) -> Result<(), Failed>
    ensures { PrintsOn K.written K.faults sink.old sink.new result
        (card_line (card.Feed link feed)) }
{
    let numbers = [link, feed.feeder, feed.flow, feed.cruise];
    print_card(b"FEED", &numbers, &[], line, sink)
}

/// Writes the YIELD card of each link that has a give-way rule.
fn print_rules<K: Sink>(links: &[Link], line: &mut LineBuffer, sink: &mut K) -> Result<(), Failed>
    ensures { PrintsOn K.written K.faults sink.old sink.new result
        (flat_map (λ l. cards_text (rule_cards l)) links.now) }
{
    for link in links {
        print_rule(link, line, sink)?;
    }
    Ok(())
}

/// Writes the YIELD card of a link, if it has a give-way rule.
fn print_rule<K: Sink>(link: &Link, line: &mut LineBuffer, sink: &mut K) -> Result<(), Failed>
    ensures { PrintsOn K.written K.faults sink.old sink.new result
        (cards_text (rule_cards link.now)) }
{
    let Some(rule) = link.gives_way else {
        return Ok(());
    };
    let numbers = [link.number, rule.other, rule.percent];
    print_card(b"YIELD", &numbers, &[], line, sink)
}

/// Writes the STEPS card of a climb plan, if there is one.
fn print_plan<K: Sink>(
    plan: Option<&ClimbPlan>,
    line: &mut LineBuffer,
    sink: &mut K,
) -> Result<(), Failed>
    requires { IfSome plan (λ p. length p.now.sizes ≤ 16) }
    ensures { PrintsOn K.written K.faults sink.old sink.new result
        (cards_text (plan_cards (option_map (λ p. p.now) plan.entry))) }
{
    let Some(plan) = plan else {
        return Ok(());
    };
    print_card(b"STEPS", &[plan.budget], &plan.sizes, line, sink)
}
