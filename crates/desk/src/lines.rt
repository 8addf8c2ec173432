// The lines of a text that comes in reads, and their answers: no reading or writing here.
ghost use Rattle.std.specs.Prelude.{◌≡◌, ◌+◌, ◌≤◌, [], length, IfSome};
ghost use Rattle.std.specs.List.{position};
ghost use Rattle.std.specs.Option.{option_copied};
ghost use Rattle.desk.specs.Texts.{is_newline};
ghost use Rattle.desk.specs.Turns.{kept_line, output_room, EndAnswered, TextAnswered, Turned};
ghost use Rattle.desk.specs.parts.Lines.{Behind};

use crate::text::Text;

// The longest line that a desk keeps: one character too many.
pub const LINE: usize = line::MOST_CHARACTERS + 1;

// The working areas of an answer, with room for the frame of every line.
#[derive(Drop)]
struct Areas {
    reception: [u8; line::MOST_SYMBOLS],
    message: [u8; line::MOST_INFORMATION],
    transmission: [u8; line::MOST_SYMBOLS],
}

// What is kept of the line that is begun, room to work in, and the output of a turn, of at most `OUTPUT` bytes.
#[derive(Drop)]
pub struct Desk<const OUTPUT: usize> {
    line: Text<LINE>,
    areas: Areas,
    pub output: Text<OUTPUT>,
}

// The place of a text's first newline, where it has one.
fn newline_in(text: &[u8]) -> Option<usize>
    ensures { result ≡ position is_newline text.now }
{
    text.iter().position(|byte| *byte == b'\n')
}

// The answer to a line, and its newline, behind the output that waits. `answer_line` writes into a part that it is lent and says how long the answer is,
// so the text's own fields are used here.
fn put<const OUTPUT: usize>(line: &[u8], areas: &mut Areas, output: &mut Text<OUTPUT>)
    requires { length output.old + output_room (length line.now) 0 ≤ OUTPUT }
    ensures { Behind line.now output.old output.new }
{
    let from = output.filled;
    let bytes = &mut output.bytes[..];
    let long = line::answer_line(
        line,
        &mut areas.reception,
        &mut areas.message,
        &mut areas.transmission,
        &mut bytes[from..],
    );
    output.filled = from + long;
    output.append(b"\n");
}

impl<const OUTPUT: usize> Desk<OUTPUT> {
    // No line is begun.
    pub fn new() -> Self
        ensures { result.line ≡ [] }
    {
        Desk {
            line: Text::new(),
            areas: Areas {
                reception: [0; line::MOST_SYMBOLS],
                message: [0; line::MOST_INFORMATION],
                transmission: [0; line::MOST_SYMBOLS],
            },
            output: Text::new(),
        }
    }

    // Answers the line that is kept. None is begun then.
    fn answer(&mut self)
        requires { length self.old.output + output_room (length self.old.line) 0 ≤ OUTPUT }
        ensures written { Behind self.old.line self.old.output self.new.output }
        ensures kept { self.new.line ≡ [] }
    {
        put(self.line.as_bytes(), &mut self.areas, &mut self.output);
        self.line.clear();
    }

    // Answers the lines that a text ends, and keeps the line that follows.
    fn answer_lines(&mut self, text: &[u8])
        requires empty { self.old.output ≡ [] }
        requires room { output_room LINE (length text.now) ≤ OUTPUT }
        ensures { TextAnswered text.now (kept_line LINE self.old.line) (kept_line LINE self.new.line) self.new.output }
    {
        let mut rest = text;
        while let Some(end) = newline_in(rest) {
            self.line.append(&rest[..end]);
            self.answer();
            rest = &rest[end + 1..];
        }
        self.line.append(rest);
    }

    // Answers the last line, where no newline ends it; an empty one is none.
    fn answer_last(&mut self)
        requires empty { self.old.output ≡ [] }
        requires room { output_room LINE 0 ≤ OUTPUT }
        ensures { EndAnswered (kept_line LINE self.old.line) self.new.output }
    {
        if !self.line.as_bytes().is_empty() {
            self.answer();
        }
    }

    // One turn of the desk, on what a read gave: nothing where a signal interrupted it, and an empty text at the end of the input.
    pub fn turn(&mut self, read: Option<&[u8]>)
        requires { IfSome (option_copied read) (λ text. output_room LINE (length text) ≤ OUTPUT) }
        ensures { Turned (option_copied read.entry) (kept_line LINE self.old.line) (kept_line LINE self.new.line) self.new.output }
    {
        self.output.clear();
        match read {
            None => {}
            Some([]) => self.answer_last(),
            Some(text) => self.answer_lines(text),
        }
    }
}
