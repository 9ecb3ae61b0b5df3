// The program: a text from standard input; its sheet, or the line of its refusal, to standard output.
#![tactic(auto)]

ghost use Rattle.std.specs.Prelude.{◌≡◌, ◌≤◌, length, take};
ghost use Rattle.answer.specs.Answer.{answer_of, sheet_of_text, printed};

use std::io;
use std::io::Read;

// What is printed for a text, at the front of `out`, and its length.
fn print(text: &[u8], out: &mut [u8]) -> usize
    requires { 52 ≤ length out.old }
    ensures counts { (result ≤ length out.new) × (result ≡ length (take result out.new)) }
    ensures printed { take result out.new ≡ printed (answer_of text.now (length out.old)) (sheet_of_text text.now) }
{
    match answer::text_to_sheet(text, out) {
        Ok(size) => size,
        Err(refusal) => {
            sheet::line::put_refused(out, refusal.number() as usize, refusal.place())
        }
    }
}

// One byte more than the longest text, which tells a text that is too long.
const MOST_READ: u64 = 65_537;

// The bytes of the longest sheet.
const SHEET_ROOM: usize = 64_320;

fn main(rt: HostRuntime) -> io::Result<()> {
    let mut text = Vec::new(rt.alloc());
    rt.reader().take(MOST_READ).read_to_end(&mut text)?;
    let mut out = [0u8; SHEET_ROOM];
    let size = print(&text, &mut out);
    rt.write_all(&out[..size])
}
