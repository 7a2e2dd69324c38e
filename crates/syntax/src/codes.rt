// The codes of a run's calls, for what shows their answers.
ghost use Rattle.std.specs.Prelude.{◌≡◌, ◌+◌, ◌≤◌, replicate};
ghost use Rattle.std.proofs.lemmas.List.Edits.{sets};
ghost use Rattle.walk.specs.Reader.{c_check};
ghost use Rattle.syntax.specs.Told.{code_number};
ghost use Rattle.syntax.specs.Codes.{call_codes, Readable};

use super::calls::Code;
use super::lent::STACK;
use super::scan::scan_run;
use super::sent::sent_at;
use ast::words::put;

// Stores a check's code for each of so many calls.
fn put_checks(codes: &mut [u8], from: usize, count: usize)
    requires { from + count ≤ 65536 }
    ensures { codes.new ≡ sets codes.old from (replicate count (code_number c_check)) }
{
    for i in 0..count {
        put(codes, from + i, Code::Check.number());
    }
}

// Stores each call's code, as far as there is room, of a run that was read: nothing that is sent is bad, and the stack has room.
#[tactic(auto, using(crate::proofs::Runs::passed_far))]
fn put_codes(s: &[u8], codes: &mut [u8])
    requires { Readable s.now }
    ensures { codes.new ≡ sets codes.old 0 (call_codes s.now) }
{
    let mut stack = [0u8; STACK];
    let mut at: usize = 2;
    let mut i: usize = 0;
    while at < s.len() {
        let Ok(sent) = sent_at(s, at, &mut stack) else {
            return;
        };
        match sent.checks {
            Some(checks) => put_checks(codes, i, checks.count),
            None => put(codes, i, s[at]),
        }
        i = i + sent.calls();
        at = sent.next;
    }
}

// Stores each call's code, as far as there is room, and leaves the bytes past them. Of a run that is refused with 2 or 3 none is stored.
#[tactic(auto, using(crate::proofs::Coded::unreadable))]
pub fn call_codes(s: &[u8], codes: &mut [u8])
    ensures { codes.new ≡ sets codes.old 0 (call_codes s.now) }
{
    if let Ok(_) = scan_run(s) {
        put_codes(s, codes);
    }
}
