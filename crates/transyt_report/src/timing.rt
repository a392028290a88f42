//! TIMING.
ghost use Rattle.std.specs.Prelude.{◌≡◌, ◌<◌, ◌≤◌, ◌+◌, ◌%◌, length};
ghost use Rattle.transyt_net.specs.Parts.{node_of};
ghost use Rattle.transyt_io.specs.Prints.{PrintsOn};
ghost use Rattle.transyt_report.specs.Texts.{stage_line, node_line, node_text, node_text_at, timing_text};

use transyt_io::{Failed, LineBuffer, Parts, Sink, print_form, print_parts};
use transyt_net::{Net, Node};
use transyt_parts::stage_length;
use transyt_session::Session;

/// The node at a place.
fn node_at(net: &Net, place: usize) -> &Node
    requires { place < length net.now.nodes }
    ensures { result.now ≡ node_of net.now place }
{
    &net.nodes()[place]
}

/// The step at which a stage begins in the network's cycle.
fn step_of(change: u32, offset: u32, steps: u32) -> u64
    requires { 0 < steps }
    ensures { result ≡ (change + offset) % steps }
{
    let change = u64::from(change);
    let offset = u64::from(offset);
    (change + offset) % u64::from(steps)
}

/// The lines of a node's stages, in a cycle of so many steps.
#[derive(Clone, Copy)]
struct StageLines<'a> {
    steps: u32,
    node: &'a Node,
    ghost some: { 0 < steps },
    ghost few: { length node.now.stages ≤ 8 },
}

impl Parts for StageLines<'_> {
    ghost number = { λ self. length self.node.now.stages };

    ghost text = { λ self. stage_line self.steps self.node.now };

    fn count(&self) -> usize {
        let node = self.node;
        node.stages.len()
    }

    #[tactic(auto, unfolding(crate::specs::Texts::stage_line))]
    fn print<K: Sink>(
        &self,
        place: usize,
        line: &mut LineBuffer,
        sink: &mut K,
    ) -> Result<(), Failed> {
        let node = self.node;
        let stage = node.stages[place];
        let number = place as u32 + 1;
        let length = stage_length(node, self.steps, number);
        let at = step_of(stage.change, node.offset, self.steps);
        let numbers = [
            u128::from(number),
            u128::from(stage.change),
            u128::from(at),
            u128::from(length),
            u128::from(stage.intergreen),
            u128::from(length.saturating_sub(stage.intergreen)),
            u128::from(stage.least),
        ];
        let form = b"STAGE # CHANGE # AT # LENGTH # INTERGREEN # GREEN # LEAST #";
        print_form(form, &numbers, line, sink)
    }
}

/// Writes the line of a node.
#[tactic(auto, unfolding(crate::specs::Texts::node_line))]
fn print_number<K: Sink>(node: &Node, line: &mut LineBuffer, sink: &mut K) -> Result<(), Failed>
    ensures { PrintsOn K.written K.faults sink.old sink.new result (node_line node.now) }
{
    let numbers = [u128::from(node.number), u128::from(node.offset)];
    print_form(b"NODE # OFFSET #", &numbers, line, sink)
}

/// Writes the lines of a node and its stages.
#[tactic(auto, using(transyt_io::proofs::PrintLaws::prints_front))]
fn print_node<K: Sink>(
    stages: &StageLines,
    line: &mut LineBuffer,
    sink: &mut K,
) -> Result<(), Failed>
    ensures { PrintsOn K.written K.faults sink.old sink.new result
        (node_text stages.now.steps stages.now.node.now) }
{
    print_number(stages.node, line, sink)?;
    print_parts(stages, line, sink)
}

/// The lines of each node and its stages.
#[derive(Clone, Copy)]
struct NodeLines<'a> {
    session: &'a Session,
}

impl Parts for NodeLines<'_> {
    ghost number = { λ self. length self.session.now.net.nodes };

    ghost text = { λ self. node_text_at self.session.now.net };

    fn count(&self) -> usize {
        let net = self.session.net();
        net.nodes().len()
    }

    fn print<K: Sink>(
        &self,
        place: usize,
        line: &mut LineBuffer,
        sink: &mut K,
    ) -> Result<(), Failed> {
        let net = self.session.net();
        let frame = net.frame();
        let stages = StageLines {
            steps: frame.step_count,
            node: node_at(net, place),
        };
        print_node(&stages, line, sink)
    }
}

/// Writes TIMING.
#[tactic(auto, using(transyt_io::proofs::PrintLaws::prints_front))]
pub(crate) fn print_timing<K: Sink>(
    session: &Session,
    line: &mut LineBuffer,
    sink: &mut K,
) -> Result<(), Failed>
    ensures { PrintsOn K.written K.faults sink.old sink.new result (timing_text session.now.net) }
{
    print_parts(&NodeLines { session }, line, sink)?;
    print_form(b"END TIMING", &[], line, sink)
}
