// A reader of a record's commands: the stream and a place in it, thin over the cursor. `command_at` takes a plain slice and a place, for a caller
// that holds no reader.
ghost use Rattle.std.specs.Prelude.{◌≡◌};
ghost use Rattle.record.specs.Commands.{start, step_at};

use crate::command::{Command, Cursor, Parent, Step};

#[derive(Clone, Copy)]
pub struct Reader<'a> {
    pub stream: &'a [u8],
    pub at: usize,
}

impl<'a> Reader<'a> {
    // At the front of a stream.
    pub fn new(stream: &'a [u8]) -> Self
        ensures { (result.stream ≡ stream.entry) × (result.at ≡ start.at) }
    {
        Reader { stream, at: 0 }
    }

    // At another place of its stream.
    pub fn moved(self, at: usize) -> Self
        ensures { (result.stream ≡ self.entry.stream) × (result.at ≡ at) }
    {
        Reader {
            stream: self.stream,
            at,
        }
    }

    // The command at its place, unjudged, with the cursor after it.
    pub fn next(self) -> Step<Command>
        ensures { result ≡ step_at self.entry.stream.now self.entry.at }
    {
        let cursor = Cursor {
            at: self.at,
            last: 0,
            parent: Parent::NoParent,
        };
        cursor.next(self.stream)
    }
}

// The command at a place of a stream, unjudged, with the cursor after it.
pub fn command_at(stream: &[u8], at: usize) -> Step<Command>
    ensures { result ≡ step_at stream.now at }
{
    Reader::new(stream).moved(at).next()
}
