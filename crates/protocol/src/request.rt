// A request line, read byte by byte: fields of decimal digits parted by spaces, tabs or carriage returns. Words beyond the
// 1,025th are tested and not kept: a term of so many words is refused by its length.
ghost use Rattle.std.specs.Prelude.{◌+◌, ◌≡◌, drop};
ghost use Rattle.protocol.specs.Requests.{
  unread,
  refused,
  letter,
  digit,
  named,
  number,
  keeping,
  line_of,
  word,
  field_end,
  barred,
  last,
  before_last,
  fed,
  fed_line,
  line_length,
};

// The topics, their letters as one number in base 256: none, and `desk`.
pub const NONE: u64 = 0;

pub const DESK: u64 = 1684370283;

// The phases of a line: before the verb's end; among the numbers, where a line without words ends; and behind the bar.
const UNNAMED: u32 = 0;

pub const BARE: u32 = 1;

pub const BARRED: u32 = 2;

// What is known of a line so far. A verb may be any word; what the line asks is told at its end.
#[derive(Clone, Copy)]
pub struct Request {
    pub phase: u32,
    // what the request is about, where the line begins with that, else none; and the verb: the letters of each as one number
    pub topic: u64,
    pub verb: u64,
    // the last numbers, of which the newest is the last, and how many were read
    pub values: [u32; 8],
    pub numbers: u32,
    // the field being read, and how many bytes it has
    pub field: u64,
    pub width: u32,
    // how many words are kept, which stand in the caller's slice: a request is handed on without them
    pub count: usize,
    // whether any byte was read, and whether the line is no request
    pub any: bool,
    pub wrong: bool,
}

// A line as far as it was read, and the place behind that.
#[derive(Drop)]
pub struct Fed {
    pub request: Request,
    pub at: usize,
}

impl Request {
    pub fn new() -> Self
        ensures { result ≡ unread }
    {
        Request {
            phase: UNNAMED,
            topic: NONE,
            verb: 0,
            values: [0; 8],
            numbers: 0,
            field: 0,
            width: 0,
            count: 0,
            any: false,
            wrong: false,
        }
    }

    // The same of `count` words that are read elsewhere.
    pub fn with_count(mut self, count: usize) -> Self
        ensures { result ≡ keeping self count }
    {
        self.count = count;
        self
    }

    pub fn begun(self) -> bool
        ensures { result ≡ self.any }
    {
        self.any
    }

    // The last number, and the one before it.
    pub fn last(self) -> u32
        ensures { result ≡ last self }
    {
        self.values[7]
    }

    pub fn before_last(self) -> u32
        ensures { result ≡ before_last self }
    {
        self.values[6]
    }

    // With the bytes from `from` on, up to the line feed.
    pub fn fed_line(self, input: &[u8], from: usize, words: &mut [u16]) -> Fed
        ensures words_after { line_of result.request words.new ≡ fed_line (line_of self words.old) (drop from input.now) }
        ensures at_value { result.at ≡ from + line_length (drop from input.now) }
    {
        let mut line = self;
        let Some(rest) = input.get(from..) else {
            return Fed {
                request: line,
                at: from,
            };
        };
        for (read, &byte) in rest.iter().enumerate() {
            if byte == b'\n' {
                return Fed {
                    request: line,
                    at: from + read,
                };
            }
            line = line.fed(byte, words);
        }
        Fed {
            request: line,
            at: from + rest.len(),
        }
    }

    // With one more byte.
    #[tactic(auto, unfolding(crate::specs::Requests::fed, crate::specs::Requests::parting))]
    pub fn fed(mut self, byte: u8, words: &mut [u16]) -> Self
        ensures { line_of result words.new ≡ fed self byte words.old }
    {
        self.any = true;
        match byte {
            b' ' | b'\t' | b'\r' => self.field_ended(words),
            b'|' => self.bar(words),
            b'0'..=b'9' => self.digit(byte - b'0'),
            b'a'..=b'z' => self.letter(byte),
            _ => self.refused(),
        }
    }

    // The line is no request.
    fn refused(mut self) -> Self
        ensures { result ≡ refused self }
    {
        self.wrong = true;
        self
    }

    // One letter of the topic or of the verb, which have at most five: the four before it are a number of 32 bits.
    #[tactic(auto, unfolding(crate::specs::Requests::letter))]
    fn letter(mut self, byte: u8) -> Self
        ensures { result ≡ letter self byte }
    {
        if self.phase != UNNAMED || 4 < self.width {
            return self.refused();
        }
        self.field = self.field % 4294967296 * 256 + u64::from(byte);
        self.width += 1;
        self
    }

    // One digit of a number or a word. A field of more than 32 bits is too large for either.
    #[tactic(auto, unfolding(crate::specs::Requests::digit))]
    fn digit(mut self, value: u8) -> Self
        ensures { result ≡ digit self value }
    {
        if self.phase == UNNAMED || 4294967295 < self.field {
            return self.refused();
        }
        self.field = self.field * 10 + u64::from(value);
        self.width = 1;
        self
    }

    // The field is at its end: the topic or the verb, a number or a word. A line is at its end where its last field is.
    #[tactic(auto, unfolding(crate::specs::Requests::field_end))]
    pub fn field_ended(mut self, words: &mut [u16]) -> Self
        ensures { line_of result words.new ≡ field_end self words.old }
    {
        if self.width == 0 {
            return self;
        }
        let field = self.field;
        self.field = 0;
        self.width = 0;
        match self.phase {
            UNNAMED => self.named(field),
            BARE => self.number(field),
            _ => self.word(field, words),
        }
    }

    // The letters of the topic, where there is none yet, or of the verb.
    #[tactic(auto, unfolding(crate::specs::Requests::named))]
    fn named(mut self, letters: u64) -> Self
        ensures { result ≡ named self letters }
    {
        if letters == DESK && self.topic == NONE {
            self.topic = letters;
            self.phase = UNNAMED;
            return self;
        }
        self.verb = letters;
        self.phase = BARE;
        self
    }

    // A number of 32 bits, of which a request has eight at most.
    #[tactic(auto, unfolding(crate::specs::Requests::number, crate::specs::Requests::pushed))]
    fn number(mut self, value: u64) -> Self
        ensures { result ≡ number self value }
    {
        let Ok(value) = u32::try_from(value) else {
            return self.refused();
        };
        if 7 < self.numbers {
            return self.refused();
        }
        let [_, a, b, c, d, e, f, g] = self.values;
        self.values = [a, b, c, d, e, f, g, value];
        self.numbers += 1;
        self
    }

    // A word of 16 bits, kept where there is room.
    #[tactic(auto, unfolding(crate::specs::Requests::word))]
    fn word(mut self, value: u64, words: &mut [u16]) -> Self
        ensures { line_of result words.new ≡ word self value words.old }
    {
        let Ok(value) = u16::try_from(value) else {
            return self.refused();
        };
        if self.count < words.len() {
            words[self.count] = value;
            self.count += 1;
        }
        self
    }

    // The bar between the numbers and the words.
    #[tactic(auto, unfolding(crate::specs::Requests::barred))]
    fn bar(self, words: &mut [u16]) -> Self
        ensures { line_of result words.new ≡ barred (field_end self words.old) }
    {
        let mut line = self.field_ended(words);
        if line.phase != BARE {
            return line.refused();
        }
        line.phase = BARRED;
        line
    }
}
