// JSON that is being written.
ghost use Rattle.std.specs.Prelude.{◌≡◌, [], ◌∷◌, ◌++◌, Some, codes, string_bytes, IfOk, OnErr, OnOk};
ghost use Rattle.json.specs.Token.{begin_object, end_object, begin_array, end_array, key};
ghost use Rattle.json.specs.Print.{print};
ghost use Rattle.serde_json.specs.Data.{string, number, unsigned, boolean};
ghost use Rattle.cmc_writer.specs.Additions.{with_value, with_row, IsBegun};

use json::Writer;
use std::alloc::{AllocError, Global};
use std::marker::Model;

/// JSON that is being written; contracts see its tokens so far. It places the commas and colons, and
/// escapes the texts. An error is one of memory: what was written stands as it was, and of a member its
/// name may stand alone.
#[derive(Drop)]
pub struct Printer {
    writer: Writer,
    /// Room for a text that is put together.
    scratch: String,
}

impl Model for Printer {
    ghost use Rattle.std.specs.Prelude.{◌≡◌, [], List};
    ghost use Rattle.json.specs.Token.{Token, tokens_code};

    ghost Value = { List Token };

    ghost coded = { tokens_code };

    ghost view = { λ p. p.writer.tokens };

    ghost invariant = { λ p. p.writer.before ≡ [] };
}

impl Printer {
    /// Nothing is written. It takes no memory.
    pub fn new(alloc: Global) -> Printer
        ensures { result ≡ [] }
    {
        Printer {
            writer: Writer::new(Vec::new(alloc)),
            scratch: String::new(alloc),
        }
    }

    /// The text as one line, which takes no more memory than it needs, and the printer with nothing
    /// written, whose memory the next line is written in.
    pub fn into_line(self, alloc: Global) -> Result<(String, Printer), AllocError>
        ensures line { IfOk result (λ r. string_bytes r.0 ≡ print self ++ 10 ∷ []) }
        ensures empty { IfOk result (λ r. r.1 ≡ []) }
    {
        let Printer { writer, scratch } = self;
        let text = unsafe { String::from_utf8_unchecked(writer.into_inner()) };
        let mut line = String::with_capacity(alloc, text.len() + 1)?;
        line.push_str(text.as_str())?;
        line.push_str("\n")?;
        let mut buffer = text.into_bytes();
        buffer.clear();
        let writer = Writer::new(buffer);
        Ok((line, Printer { writer, scratch }))
    }

    /// An object begins.
    pub fn begin_object(&mut self) -> Result<(), AllocError>
        ensures written { OnOk result (self.new ≡ self.old ++ begin_object ∷ []) }
        ensures same { OnErr result (self.new ≡ self.old) }
    {
        self.writer.begin_object()
    }

    /// It ends.
    pub fn end_object(&mut self) -> Result<(), AllocError>
        ensures written { OnOk result (self.new ≡ self.old ++ end_object ∷ []) }
        ensures same { OnErr result (self.new ≡ self.old) }
    {
        self.writer.end_object()
    }

    /// A list begins.
    pub fn begin_array(&mut self) -> Result<(), AllocError>
        ensures written { OnOk result (self.new ≡ self.old ++ begin_array ∷ []) }
        ensures same { OnErr result (self.new ≡ self.old) }
    {
        self.writer.begin_array()
    }

    /// It ends.
    pub fn end_array(&mut self) -> Result<(), AllocError>
        ensures written { OnOk result (self.new ≡ self.old ++ end_array ∷ []) }
        ensures same { OnErr result (self.new ≡ self.old) }
    {
        self.writer.end_array()
    }

    /// The name of the member whose value comes next.
    pub fn name(&mut self, name: &str) -> Result<(), AllocError>
        ensures written { OnOk result (self.new ≡ self.old ++ key name.now ∷ []) }
        ensures same { OnErr result (self.new ≡ self.old) }
    {
        self.writer.key(name)
    }

    /// A text.
    #[tactic(auto, unfolding(crate::specs::Additions::with_value))]
    pub fn text(&mut self, text: &str) -> Result<(), AllocError>
        ensures written { OnOk result (self.new ≡ with_value self.old (string text.now)) }
        ensures same { OnErr result (self.new ≡ self.old) }
    {
        self.writer.string(text)
    }

    /// A number.
    #[tactic(auto, unfolding(crate::specs::Additions::with_value))]
    pub fn count(&mut self, count: u64) -> Result<(), AllocError>
        ensures written { OnOk result (self.new ≡ with_value self.old (number (unsigned count))) }
        ensures same { OnErr result (self.new ≡ self.old) }
    {
        self.writer.u64(count)
    }

    /// True or false.
    #[tactic(auto, unfolding(crate::specs::Additions::with_value))]
    pub fn flag(&mut self, flag: bool) -> Result<(), AllocError>
        ensures written { OnOk result (self.new ≡ with_value self.old (boolean flag)) }
        ensures same { OnErr result (self.new ≡ self.old) }
    {
        self.writer.boolean(flag)
    }

    /// A text of two parts with a slash between them.
    #[tactic(auto, unfolding(crate::specs::Additions::with_value))]
    pub fn pair(&mut self, first: &str, second: &str) -> Result<(), AllocError>
        ensures written { OnOk result (self.new ≡ with_value self.old (string (first.now ++ (codes "/" ++ second.now)))) }
        ensures same { OnErr result (self.new ≡ self.old) }
    {
        self.scratch.clear();
        self.scratch.push_str(first)?;
        self.scratch.push_str("/")?;
        self.scratch.push_str(second)?;
        self.writer.string(self.scratch.as_str())
    }

    /// A text of three parts with slashes between them.
    #[tactic(auto, unfolding(crate::specs::Additions::with_value))]
    pub fn triple(&mut self, first: &str, second: &str, third: &str) -> Result<(), AllocError>
        ensures written { OnOk result (self.new ≡ with_value self.old (string (first.now ++ (codes "/" ++ (second.now ++ (codes "/" ++ third.now)))))) }
        ensures same { OnErr result (self.new ≡ self.old) }
    {
        self.scratch.clear();
        self.scratch.push_str(first)?;
        self.scratch.push_str("/")?;
        self.scratch.push_str(second)?;
        self.scratch.push_str("/")?;
        self.scratch.push_str(third)?;
        self.writer.string(self.scratch.as_str())
    }

    /// A text with an end after it.
    #[tactic(auto, unfolding(crate::specs::Additions::with_value))]
    pub fn ended(&mut self, text: &str, end: &str) -> Result<(), AllocError>
        ensures written { OnOk result (self.new ≡ with_value self.old (string (text.now ++ end.now))) }
        ensures same { OnErr result (self.new ≡ self.old) }
    {
        self.scratch.clear();
        self.scratch.push_str(text)?;
        self.scratch.push_str(end)?;
        self.writer.string(self.scratch.as_str())
    }

    /// A member that is a text.
    #[tactic(auto, unfolding(crate::specs::Additions::with_row))]
    pub fn text_row(&mut self, name: &str, text: &str) -> Result<(), AllocError>
        ensures written { OnOk result (self.new ≡ with_row self.old name.now (Some (string text.now))) }
        ensures begun { OnErr result (IsBegun self.old self.new name.now) }
    {
        self.name(name)?;
        self.text(text)
    }

    /// A member that is a number.
    #[tactic(auto, unfolding(crate::specs::Additions::with_row))]
    pub fn count_row(&mut self, name: &str, count: u64) -> Result<(), AllocError>
        ensures written { OnOk result (self.new ≡ with_row self.old name.now (Some (number (unsigned count)))) }
        ensures begun { OnErr result (IsBegun self.old self.new name.now) }
    {
        self.name(name)?;
        self.count(count)
    }

    /// A member that is true or false.
    #[tactic(auto, unfolding(crate::specs::Additions::with_row))]
    pub fn flag_row(&mut self, name: &str, flag: bool) -> Result<(), AllocError>
        ensures written { OnOk result (self.new ≡ with_row self.old name.now (Some (boolean flag))) }
        ensures begun { OnErr result (IsBegun self.old self.new name.now) }
    {
        self.name(name)?;
        self.flag(flag)
    }
}
