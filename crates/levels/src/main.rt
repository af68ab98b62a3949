// The level report of what standard input gives, as raw f64, low byte first: six figures, one to a line. Rests on `report` for the figures and on
// `std::io` for the streams. docs/LEVELS.md is its page.
#![tactic(auto)]

ghost use Rattle.std.specs.Prelude.{◌<◌, ◌≤◌, length, IfOk};

use report::refused::Refused;
use report::report::Report;
use std::io::{self, Read, Stdin, Stdout};

// Why there is no report.
enum Failure {
    Unread,
    Refused(Refused),
}

impl From<io::Error> for Failure {
    fn from(_error: io::Error) -> Failure {
        Failure::Unread
    }
}

impl From<Refused> for Failure {
    fn from(refused: Refused) -> Failure {
        Failure::Refused(refused)
    }
}

// Reads until the bytes are full or the input ends, and says how many came.
// Stays: the count goes up by what each read brings, and not by one; the library's `read_exact` would not say how many bytes came before an end.
fn fill(mut stdin: Stdin, bytes: &mut [u8]) -> io::Result<usize>
    ensures { IfOk result (λ count. count ≤ length bytes.new) }
{
    let mut count = 0;
    while count < bytes.len() {
        let more = stdin.read(&mut bytes[count..])?;
        if more == 0 {
            break;
        }
        count += more;
    }
    Ok(count)
}

// The report of the whole input, or the first refusal. Each time the bytes are filled before they are added, so that no read cuts a sample.
fn read_input(stdin: Stdin, bytes: &mut [u8]) -> Result<Report, Failure>
    requires { 0 < length bytes.old }
{
    let mut report = Report::new();
    loop {
        let count = fill(stdin, bytes)?;
        report.add_bytes(&bytes[..count])?;
        if count < bytes.len() {
            return Ok(report);
        }
    }
}

// Where a line cannot be written, there is nobody to tell, and the next is tried.
fn write_line(stdout: Stdout, n: u64) {
    let _ = println!(stdout; "{n}");
}

// The figures in document 02's order, the last as its bits.
fn write_report(stdout: Stdout, report: Report) {
    let Report {
        samples,
        nans,
        infinities,
        above_one,
        sign_changes,
        largest,
        ..
    } = report;
    for figure in [samples, nans, infinities, above_one, sign_changes] {
        write_line(stdout, figure);
    }
    let _ = println!(stdout; "{largest:016x}");
}

fn main(rt: HostRuntime) {
    let stdout = rt.stdout();
    let mut bytes = [0u8; 65536];
    match read_input(rt.stdin(), &mut bytes) {
        Ok(report) => write_report(stdout, report),
        Err(Failure::Refused(refused)) => write_line(stdout, refused.into()),
        Err(Failure::Unread) => {
            let _ = eprintln!(rt; "levels: standard input cannot be read");
        }
    }
}
