//! The promises, each asked of a parser by a function that does no more.
ghost use Rattle.tests_promises.specs.NeedsOfMore.{AsksExactly};

use combine::error::ParseResult;
use combine::parser::Parser;
use combine::stream::Stream;

/// Is shown a parser that has one outcome, and on need of more leaves nothing unread.
pub fn keeps<Input: Stream, P: Parser<Input>>(parser: &P)
    requires determined { P.determined parser.now }
    requires keeps { (P.meaning parser.now).keeps }
{}

/// Is shown a parser that also asks for no memory.
pub fn keeps_without_memory<Input: Stream, P: Parser<Input>>(parser: &P)
    requires determined { P.determined parser.now }
    requires keeps { (P.meaning parser.now).keeps × (P.meaning parser.now).heapless }
{}

/// Calls such a parser from the start. Unless a fault stops it, it asks for more exactly where what it means is undecided.
pub fn keeps_and_asks<Input: Stream, P: Parser<Input> + Drop>(
    input: &mut Input,
    parser: P,
) -> ParseResult<P::Output, Input::Error>
    requires lawful { P.lawful parser }
    requires determined { P.determined parser }
    requires keeps { (P.meaning parser).keeps × (P.meaning parser).heapless }
    ensures { AsksExactly Input.Error.observers.kind (P.meaning parser).whole (Input.view input.old) (Input.view input.new) result }
{
    let mut parser = parser;
    let mut state = P::PartialState::default();
    parser.parse_first(input, &mut state)
}

/// Is shown a parser that has one outcome, and on need of more takes nothing.
pub fn puts_back<Input: Stream, P: Parser<Input>>(parser: &P)
    requires determined { P.determined parser.now }
    requires puts_back { (P.meaning parser.now).puts_back }
{}

/// Is shown a parser that also asks for no memory.
pub fn puts_back_without_memory<Input: Stream, P: Parser<Input>>(parser: &P)
    requires determined { P.determined parser.now }
    requires puts_back { (P.meaning parser.now).puts_back × (P.meaning parser.now).heapless }
{}

/// Is shown a parser that on need of more leaves nothing unread.
pub fn keeps_alone<Input: Stream, P: Parser<Input>>(parser: &P)
    requires { (P.meaning parser.now).keeps }
{}
