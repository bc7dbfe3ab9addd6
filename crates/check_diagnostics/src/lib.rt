// A finding, and a slice that takes the findings of several checks, one after the other.
#![tactic(auto)]

ghost use Rattle.std.specs.Prelude.{◌≡◌, ◌+◌, ◌*◌, ◌<◌, ◌≤◌, length};
ghost use mathlib.Core.List.{flat_map};
ghost use Rattle.base_common.specs.Wrote.{put};
ghost use Rattle.table_records.specs.Table.{count, span_start_of, span_end_of};
ghost use Rattle.check_diagnostics.specs.Finding.{numbers, listed, error_at, error_between};
ghost use Rattle.check_diagnostics.specs.Raises.{Adds};

use table_records::NodeId;

pub mod codes;
pub mod contexts;

// A finding: its code, the node that raises it, two spans and a context.
#[derive(Clone, Copy)]
pub struct Finding {
    pub code: u32,
    pub node: NodeId,
    pub start: u32,
    pub end: u32,
    pub start2: u32,
    pub end2: u32,
    pub context: u32,
}

// A finding with one span.
pub fn error(code: u32, node: NodeId, start: u32, end: u32, context: u32) -> Option<Finding>
    ensures { result ≡ Some (record { code = code; node = node; start = start; end = end; start2 = 0; end2 = 0; context = context }) }
{
    Some(Finding {
        code,
        node,
        start,
        end,
        start2: 0,
        end2: 0,
        context,
    })
}

// A finding at the span of a node.
pub fn error_at(nodes: &[u32], code: u32, node: NodeId, at: NodeId, context: u32) -> Option<Finding>
    requires { at.0 < count nodes.now }
    ensures { result ≡ error_at nodes.now code node.0 at.0 context }
{
    let start = table_records::span_start(nodes, at);
    let end = table_records::span_end(nodes, at);
    error(code, node, start, end, context)
}

// A finding at the spans of two nodes.
pub fn error_between(
    nodes: &[u32],
    code: u32,
    node: NodeId,
    first: NodeId,
    second: NodeId,
) -> Option<Finding>
    requires first_bound { first.0 < count nodes.now }
    requires second_bound { second.0 < count nodes.now }
    ensures { result ≡ error_between nodes.now code node.0 first.0 second.0 }
{
    let start = table_records::span_start(nodes, first);
    let end = table_records::span_end(nodes, first);
    let start2 = table_records::span_start(nodes, second);
    let end2 = table_records::span_end(nodes, second);
    Some(Finding {
        code,
        node,
        start,
        end,
        start2,
        end2,
        context: contexts::NONE,
    })
}

// The findings of a tree as its checks raise them: the lent slice, and how many numbers were raised so far. A finding is written where there is room for it, and
// else only counted. Counts stay below 900,000,000,000: a tree has at most 65,535 nodes, and a check raises at most one finding for each node,
// 7 × 65,535 = 458,745 numbers. The bounds of the checks leave those that they call their own findings' room, so that no sum wraps.
#[derive(Drop)]
pub struct Findings<'a> {
    pub slice: &'a mut [u32],
    pub raised: usize,
}

impl<'a> Findings<'a> {
    // None so far.
    pub fn new(slice: &'a mut [u32]) -> Findings<'a>
        ensures same_slice { result.slice.ghost_name ≡ slice.entry.ghost_name }
        ensures slice { result.slice.now ≡ slice.old }
        ensures raised { result.raised ≡ 0 }
    {
        Findings { slice, raised: 0 }
    }

    // Writes the seven numbers of a finding from `at` on.
    fn put(&mut self, at: usize, f: Finding)
        requires { at + 7 ≤ length self.old.slice.now }
        ensures same_slice { self.new.slice.ghost_name ≡ self.old.slice.ghost_name }
        ensures slice { self.new.slice.now ≡ put self.old.slice.now at (numbers f) }
        ensures raised { self.new.raised ≡ self.old.raised }
    {
        let numbers = [
            f.code, f.node.0, f.start, f.end, f.start2, f.end2, f.context,
        ];
        self.slice[at..at + 7].copy_from_slice(&numbers);
    }

    // Raises what a check found.
    pub fn raise(&mut self, r: Option<Finding>)
        requires { self.old.raised ≤ 1000000000000 }
        ensures adds { Adds self.old self.new (listed r) }
        ensures upper_bound { self.new.raised ≤ self.old.raised + 7 }
    {
        let Some(f) = r else {
            return;
        };
        let at = self.raised;
        self.raised = at + 7;
        if at + 7 <= self.slice.len() {
            self.put(at, f);
        }
    }

    // Raises what some checks found, in their order.
    pub fn raise_all(&mut self, results: &[Option<Finding>])
        requires { self.old.raised + 7 * length results.now ≤ 1000000000000 }
        ensures adds { Adds self.old self.new (flat_map listed results.now) }
        ensures upper_bound { self.new.raised ≤ self.old.raised + 7 * length results.now }
    {
        for r in results {
            self.raise(*r);
        }
    }
}
