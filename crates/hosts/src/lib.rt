// Whoever calls the writer has what document 02 promises. These functions know nothing of `maker::write_trace`, `lister::list_steps` and the calls of
// `rewriting` and `telling` but their contracts: were one of those weaker, they would not be proved.
#![tactic(auto)]

ghost use Rattle.written.specs.Writes.{WritesTrace};
ghost use Rattle.written.specs.Lists.{ListsSteps};
ghost use Rattle.written.specs.Rewrites.{RewritesTrace, RewritesWhole};
ghost use Rattle.written.specs.Given.{WritesGiven};
ghost use Rattle.telling.specs.Printed.{GivenPrinted, AgainPrinted};
ghost use Rattle.hosts.specs.Hosts.{WrittenTwice, NotesLeftOut};

use rules::Refusal;
use two::Two;

// What is written reads back as the steps say; a refusal is given only on its row.
pub fn promised_trace(steps: &[u8], serial: u32, out: &mut [u8]) -> Result<usize, Refusal>
    ensures { WritesTrace steps.now serial out.old result out.new }
{
    maker::write_trace(steps, serial, out)
}

// .. where the serial and the steps are given in one.
pub fn promised_given(given: &[u8], out: &mut [u8]) -> Result<usize, Refusal>
    ensures { WritesGiven given.now out.old result out.new }
{
    rewriting::write_given(given, out)
}

// Two calls on the same steps, with one starting serial: each as promised, and, with buffers of the same content, alike.
pub fn written_twice(
    steps: &[u8],
    serial: u32,
    out: &mut [u8],
    out2: &mut [u8],
) -> Two<Result<usize, Refusal>>
    ensures { WrittenTwice steps.now serial out.old out2.old result out.new out2.new }
{
    Two {
        one: maker::write_trace(steps, serial, out),
        other: maker::write_trace(steps, serial, out2),
    }
}

// The steps of a trace are followed into the trace's history.
pub fn promised_steps(trace: &[u8], out: &mut [u8]) -> Result<usize, Refusal>
    ensures { ListsSteps trace.now out.old result out.new }
{
    lister::list_steps(trace, out)
}

// A trace without notes comes out with its own bytes, one with notes without them; each buffer's refusal has its row, and what both buffers then hold is said.
pub fn promised_again(trace: &[u8], steps: &mut [u8], out: &mut [u8]) -> Result<usize, Refusal>
    ensures { RewritesTrace trace.now steps.old out.old result steps.new out.new × NotesLeftOut trace.now out.old result out.new }
{
    rewriting::rewrite_trace(trace, steps, out)
}

// .. where no buffer is lent for the steps.
pub fn promised_whole(trace: &[u8], out: &mut [u8]) -> Result<usize, Refusal>
    ensures { RewritesWhole trace.now out.old result out.new × NotesLeftOut trace.now out.old result out.new }
{
    rewriting::rewrite_whole(trace, out)
}

// What is handed back, and what `writer` prints, is what the documents say: the trace, or the line of its refusal.
pub fn printed_given<'a>(given: &[u8], out: &'a mut [u8; 32768]) -> &'a [u8]
    ensures { GivenPrinted given.now result.now }
{
    telling::given_text(given, out)
}

// .. and what `rewrite` prints.
pub fn printed_again<'a>(trace: &[u8], out: &'a mut [u8; 32768]) -> &'a [u8]
    ensures { AgainPrinted trace.now result.now }
{
    telling::rewritten_text(trace, out)
}
