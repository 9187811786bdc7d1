// Runs a fixed list of the original Rust's answers from standard input, and says how many cases of each kind it met and whether one of
// Pelisafu's answers is another. The list is written by `differential/run record`: a byte 1 and then cases: kind u8 (1 a plan, 2 a
// body, 3 deletions planned, 4 deletions read), size u32, and so many bytes.
//
// Nothing is taken on trust from the list: a number outside of it reads as 0, and a case whose numbers don't come to its size is broken.
// The functions here compare and print. Their contracts say only what others need to be safe, and what is printed is compared with the file `stdout`.

#![tactic(auto)]

mod body_cases;
mod counts;
mod deletions;
mod list;
mod plans;
mod spaces;

ghost use Rattle.std.specs.Prelude.{◌≡◌, ◌+◌, ◌≤◌, ◌<◌, length};

use list::count32;
use std::io::{Read, Stdin, Stdout};

// What a case is a case of.
#[derive(Clone, Copy)]
pub(crate) enum Kind {
    Plan,
    Body,
    Struck,
    Section,
}

// Why a run ends: a case did not come out as the list says, or it is broken.
#[derive(Clone, Copy)]
pub(crate) enum Fault {
    Different,
    Broken,
}

// A run that ended early: why, and how many cases came out as the list says before that.
#[derive(Clone, Copy)]
struct Stopped {
    fault: Fault,
    cases: u64,
}

impl TryFrom<u8> for Kind {
    type Error = Fault;

    fn try_from(kind: u8) -> Result<Kind, Fault> {
        match kind {
            1 => Ok(Kind::Plan),
            2 => Ok(Kind::Body),
            3 => Ok(Kind::Struck),
            4 => Ok(Kind::Section),
            _ => Err(Fault::Broken),
        }
    }
}

// 400,000 bytes: a list that fills them may be cut off, and counts as broken.
fn list_space() -> [u8; 400000]
    ensures { 400000 ≡ length result }
{
    [0; 400000]
}

// Runs a case: whether it is a plan that came out as ordinals too.
fn run_case(kind: Kind, b: &[u8]) -> Result<bool, Fault> {
    match kind {
        Kind::Plan => return plans::run(b),
        Kind::Body => body_cases::run(b)?,
        Kind::Struck => deletions::run_planned(b)?,
        Kind::Section => deletions::run_read(b)?,
    }
    Ok(false)
}

// The bytes that a case takes with its kind and size, as far as they are there.
fn size_at(list: &[u8], at: usize) -> usize
    requires { at < length list.now }
    ensures { (1 ≤ result) × (at + result ≤ length list.now) }
{
    let left = list.len() - at;
    if left < 5 {
        return left;
    }
    let n = count32(list, at + 1);
    if left - 5 < n { left } else { n + 5 }
}

// Runs the case at a place of the list, and counts it where it comes out as the list says.
fn run_at(list: &[u8], at: usize, counts: &mut [u64]) -> Result<(), Fault>
    requires { at < length list.now }
{
    let n = size_at(list, at);
    if n < 5 || count32(list, at + 1) != n - 5 {
        return Err(Fault::Broken);
    }
    let kind = Kind::try_from(list[at])?;
    let b = &list[at + 5..at + n];
    let also = run_case(kind, b)?;
    counts::case(counts, kind, b, also);
    Ok(())
}

// Runs every case after the first byte, up to the first that does not come out as the list says, and answers how many did.
fn run_all(list: &[u8], counts: &mut [u64]) -> Result<u64, Stopped> {
    let mut at: usize = 1;
    let mut cases: u64 = 0;
    while at < list.len() {
        if let Err(fault) = run_at(list, at, counts) {
            return Err(Stopped { fault, cases });
        }
        at += size_at(list, at);
        cases += 1;
    }
    Ok(cases)
}

fn say_ended(stdout: Stdout, ended: Result<u64, Stopped>) {
    let _ = match ended {
        Ok(cases) => println!(stdout; "cases {cases}\ndifferences 0"),
        Err(stopped) => {
            let cases = stopped.cases;
            match stopped.fault {
                Fault::Different => println!(stdout; "first difference at case {cases}"),
                Fault::Broken => println!(stdout; "broken at case {cases}"),
            }
        }
    };
}

// One read into list from `at` on: 0 at the end of the input, and where the read fails.
fn read_some(mut stdin: Stdin, list: &mut [u8], at: usize) -> usize
    requires { at ≤ length list.old }
    ensures { at + result ≤ length list.old }
{
    stdin.read(&mut list[at..]).unwrap_or(0)
}

// Reads until list is full, the input ends or a read fails, and answers how many bytes stand in front.
fn read_full(stdin: Stdin, list: &mut [u8]) -> usize
    ensures { result ≤ length list.old }
{
    let end = list.len();
    let mut got = 0;
    while got < end {
        let more = read_some(stdin, list, got);
        if more == 0 {
            return got;
        }
        got += more;
    }
    got
}

fn run(stdout: Stdout, list: &[u8]) {
    let mut counts = [0u64; 42];
    let ended = run_all(list, &mut counts);
    counts::say(stdout, &counts);
    say_ended(stdout, ended);
}

// A list that is empty, fills its space or begins with another byte is broken before its first case.
fn main(rt: HostRuntime) {
    let stdout = rt.stdout();
    let mut list = list_space();
    let got = read_full(rt.stdin(), &mut list);
    if got == 0 || got == list.len() || list[0] != 1 {
        let broken = Stopped {
            fault: Fault::Broken,
            cases: 0,
        };
        say_ended(stdout, Err(broken));
        return;
    }
    run(stdout, &list[..got]);
}
