// The lines of two networks' texts, place by place: whether they clash, and merged. At each turn the next line is a part of
// whichever file it came from.
ghost use Rattle.std.specs.Prelude.{◌≡◌, ◌≤◌, ◌<◌, ◌+◌, length, IfSome};
ghost use Rattle.model.specs.NetworkText.{network_text};
ghost use Rattle.model.specs.Join as join;
ghost use Rattle.joins.specs.Merge as spec;
ghost use Rattle.joins.specs.Merge.{line_of};
ghost use Rattle.joins.specs.Front.{Front};

use crate::compare::same_text;
use crate::text::NetworkText;
use calculus::network::Network;
use forms::line::next_line;

// Whether the network has a line at place k: that of node k + 1 or, behind the 32 nodes, of the route at place k − 32.
fn has_entry(n: &Network, k: usize) -> bool
    requires { k < 1088 }
    ensures { result ≡ spec.has_entry n.now k }
{
    if k < 32 {
        return n.nodes[k].is_some();
    }
    n.routes[k - 32].is_some()
}

// The line of place k, with its newline, if the network has one; `at`, where it starts, goes on behind it.
fn place_line<'a>(of: &NetworkText<'a>, at: &mut usize, k: usize) -> Option<&'a [u8]>
    requires { k < 1088 }
    ensures line { line_of result ≡ spec.line_part of.now.text.now at.old (spec.has_entry of.now.network k) }
    ensures behind { at.new ≡ at.old + length (line_of result) }
    ensures some { IfSome result (λ l. 0 < length l.now) }
{
    if !has_entry(&of.network, k) {
        return None;
    }
    let start = *at;
    let line = next_line(of.text, start)?;
    *at = line.next;
    Some(&of.text[start..line.next])
}

// Whether both lines are there, and they are not the same.
fn differ(x: Option<&[u8]>, y: Option<&[u8]>) -> bool
    requires first { IfSome x (λ l. 0 < length l.now) }
    requires second { IfSome y (λ l. 0 < length l.now) }
    ensures { result ≡ join.differ (line_of x.entry) (line_of y.entry) }
{
    match (x, y) {
        (Some(x), Some(y)) => !same_text(x, y),
        _ => false,
    }
}

// Whether the two networks clash: at some place both have a line, and not the same one.
pub fn clash(a: &NetworkText<'_>, b: &NetworkText<'_>) -> bool
    ensures { result ≡ join.clash a.now.network b.now.network }
{
    let mut i: usize = 0;
    let mut j: usize = 0;
    for k in 0..1088 {
        let x = place_line(a, &mut i, k);
        let y = place_line(b, &mut j, k);
        if differ(x, y) {
            return true;
        }
    }
    false
}

// The lines of both, in order, those that both have once; answers how many bytes they are.
pub fn merge(a: &NetworkText<'_>, b: &NetworkText<'_>, out: &mut [u8]) -> usize
    requires { 65536 ≤ length out.old }
    ensures { Front out.old (network_text (join.union a.now.network b.now.network)) out.new result }
{
    let mut i: usize = 0;
    let mut j: usize = 0;
    let mut end: usize = 0;
    for k in 0..1088 {
        let first = place_line(a, &mut i, k);
        let second = place_line(b, &mut j, k);
        if let Some(line) = first.or(second) {
            let size = line.len();
            out[end..end + size].copy_from_slice(line);
            end += size;
        }
    }
    end
}
