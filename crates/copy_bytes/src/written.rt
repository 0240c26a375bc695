// The list of a copy's runs in bytes, and numbers in bytes, written into a lent buffer.
ghost use Rattle.std.specs.Prelude.{◌≡◌, ◌++◌, ◌≤◌};
ghost use Rattle.rules_server.specs.Numbers.{in_bytes};
ghost use Rattle.writing.specs.Window.{Wrote, write};
ghost use Rattle.copy_bytes.specs.Lists.{eight, runs_bytes};

use octets::numbers::eight_bytes;
use rules_server::Run;
use rules_tablet::Copy;
use writing::window::Writer;

// A number in K bytes.
pub(crate) fn put_in_bytes<const K: usize>(w: &mut Writer, n: usize)
    requires { K ≤ 8 }
    ensures { Wrote (in_bytes K n) w.old w.new }
{
    w.put(&eight_bytes(n)[8 - K..]);
}

// A number in eight bytes.
pub fn put_eight(w: &mut Writer, n: usize)
    ensures { Wrote (eight n) w.old w.new }
{
    w.put(&eight_bytes(n));
}

// Two numbers.
#[tactic(auto, using(writing::proofs::window::Laws::writes))]
pub fn put_pair(w: &mut Writer, first: usize, last: usize)
    ensures { Wrote (eight first ++ eight last) w.old w.new }
{
    put_eight(w, first);
    put_eight(w, last);
}

// The numbers of the runs, by a writer of its own: of a lent one the place would be loaded anew for each number.
pub fn put_runs(w: &mut Writer, runs: &[Run])
    ensures { Wrote (runs_bytes runs.now) w.old w.new }
{
    let mut own = Writer {
        out: &mut *w.out,
        skip: w.skip,
        at: w.at,
    };
    for r in runs {
        put_pair(&mut own, r.first, r.last);
    }
    w.skip = own.skip;
    w.at = own.at;
}

// The count of a copy's runs and every place of their array, whether or not the record keeps its rule.
#[tactic(auto, using(writing::proofs::window::Laws::writes))]
fn put_count_and_runs(w: &mut Writer, c: Copy)
    ensures { Wrote (eight c.count ++ runs_bytes c.runs) w.old w.new }
{
    put_eight(w, c.count);
    put_runs(w, &c.runs);
}

// The list of a copy's runs, from the front of out on, whether or not the record keeps its rule. What it returns is the place behind it.
pub fn put_list(out: &mut [u8], c: Copy) -> usize
    ensures bytes { out.new ≡ (write (eight c.count ++ runs_bytes c.runs) (record { bytes = out.old; skip = 0; at = 0 })).bytes }
    ensures at { result ≡ (write (eight c.count ++ runs_bytes c.runs) (record { bytes = out.old; skip = 0; at = 0 })).at }
{
    let mut w = Writer::new(out);
    put_count_and_runs(&mut w, c);
    w.at
}
