//! The first fault that counts.

ghost use Rattle.std.specs.Prelude.{◌≡◌, None};
ghost use Rattle.elab_findings.specs.Faults as spec;
ghost use Rattle.elab_findings.specs.Uses.{Marks};
ghost use Rattle.elab_findings.specs.Findings.{Answers};
ghost use Rattle.elab_findings.specs.First as first;

use crate::fault::Fault;
use crate::findings::{Findings, Held};

/// Whether a fault comes before another: in text order, and at one token by the lower number.
pub fn is_before(f: Fault, g: Fault) -> bool
    ensures { result ≡ spec.is_before f g }
{
    if f.at == g.at {
        f.rule.number() < g.rule.number()
    } else {
        f.at < g.at
    }
}

fn lesser(best: Option<Fault>, f: Fault) -> Option<Fault>
    ensures { result ≡ first.lesser best f }
{
    match best {
        None => Some(f),
        Some(b) => if is_before(f, b) { Some(f) } else { Some(b) },
    }
}

fn of_all(faults: &[Fault]) -> Option<Fault>
    ensures { result ≡ first.of_all None faults.now }
{
    let mut best = None;
    for f in faults {
        best = lesser(best, *f);
    }
    best
}

/// Whether a declaration is marked as used.
pub fn is_used(marks: &[bool], declaration: u32) -> bool
    ensures { result ≡ first.is_used marks.now declaration }
{
    let place = declaration as usize;
    place < marks.len() && marks[place]
}

fn of_used(marks: &[bool], from: Option<Fault>, held: &[Held]) -> Option<Fault>
    ensures { result ≡ first.of_used marks.now from held.now }
{
    let mut best = from;
    for h in held {
        if is_used(marks, h.declaration) {
            best = lesser(best, h.fault);
        }
    }
    best
}

/// The first fault that counts, where the used declarations are marked.
pub fn first(findings: &Findings, marks: &[bool]) -> Option<Fault>
    requires { Marks findings.now.roots findings.now.uses marks.now }
    ensures { Answers findings.now result }
{
    let everywhere = of_all(findings.faults.as_slice());
    of_used(marks, everywhere, findings.held.as_slice())
}
