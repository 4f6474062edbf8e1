// What is wrong with a line.
ghost use Rattle.std.specs.Prelude.{Some};
ghost use Rattle.tool_script.specs.Spelled.{fault_text};

use std::fmt;

#[derive(Clone, Copy, PartialEq, Eq)]
pub enum Fault {
    Unknown,
    Place,
    Words,
    Number,
    Bytes,
    Word,
    Volume,
    Long,
}

impl fmt::Display for Fault {
    ghost output = { λ fault. Some (fault_text fault) };

    fn fmt<W: fmt::Write>(&self, f: &mut fmt::Formatter<W>) -> fmt::Result {
        f.write_str(match self {
            Fault::Unknown => "no line begins with this word",
            Fault::Place => "this line is out of its place",
            Fault::Words => "this line has too many words",
            Fault::Number => "a number is missing or too large",
            Fault::Bytes => "bytes are missing, too many or not hexadecimal",
            Fault::Word => "a word is missing or may not stand there",
            Fault::Volume => "the volume has more than 65,536 bytes",
            Fault::Long => "the script has more than 4 MiB",
        })
    }
}
