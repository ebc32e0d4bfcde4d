// Reads a payload from standard input and says in one line what it holds, or why it is refused.
#![tactic(auto)]

ghost use Rattle.std.specs.Prelude.{IfOk, IfSome};
ghost use Rattle.check_payload.specs.Program.{ProgramAnswers};

mod fill;

use crate::fill::fill;
use refusal::{Kind, Layer, Refusal};
use std::io;
use std::io::Read;
use summary::{Line, Memory, Summary, read_summary};

const MOST_INPUT: usize = 60_000;

fn answer(input: &[u8]) -> Result<Summary, Refusal>
    ensures { ProgramAnswers input.now result }
{
    if input.len() > MOST_INPUT {
        return Err(Refusal::new(Kind::TooLong, Layer::NoLayer, 0));
    }
    let mut memory = Memory::blank();
    let (mut records, mut table) = memory.lend();
    read_summary(input, &mut records, &mut table)
}

// The answer to all bytes of a reader. One more than may be read is enough to tell what is too long. They lie on the
// stack: the program has no heap that could be refused.
fn answer_from<R: Read + Drop>(mut source: R) -> io::Result<Line>
    ensures { IfOk result (λ line. IfSome (R.remaining source) (λ bytes. ProgramAnswers bytes line.0)) }
{
    let mut bytes = [0; MOST_INPUT + 1];
    let used = fill(&mut source, &mut bytes)?;
    Ok(Line(answer(&bytes[..used])))
}

fn main(rt: HostRuntime) -> io::Result<()> {
    let line = answer_from(rt.stdin())?;
    println!(rt; "{line}")
}
