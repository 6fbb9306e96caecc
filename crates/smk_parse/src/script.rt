ghost use Rattle.std.specs.Prelude.{◌≡◌, ◌≤◌, length, take, IfSome, IfNone};
ghost use Rattle.smk_parse.specs.{Vocabulary.without_cr, Texts.Cuts};

use crate::front::line_len;
use smk_base::LineSpan;

/// How far the line goes without a carriage return as its last byte.
#[tactic(auto, using(crate::proofs::Texts::cr_kept, crate::proofs::Texts::no_cr_kept))]
fn kept_len(line: &[u8]) -> usize
    ensures is { take result line.now ≡ without_cr line.now }
    ensures within { result ≤ length line.now }
{
    match line {
        [.., b'\r'] => line.len() - 1,
        _ => line.len(),
    }
}

/// The line of a script that begins at this place, without its line feed and without one carriage return before it. None at the end of the script.
pub fn line_at(script: &[u8], from: usize) -> Option<LineSpan>
    requires { from ≤ length script.now }
    ensures none { IfNone result (from ≡ length script.now) }
    ensures some { IfSome result (λ span. Cuts script.now from span) }
{
    if from == script.len() {
        return None;
    }
    let rest = &script[from..];
    let len = line_len(rest);
    let kept = kept_len(&rest[..len]);
    let behind = rest.len().min(len + 1);
    Some(LineSpan {
        start: from,
        end: from + kept,
        next: from + behind,
    })
}
