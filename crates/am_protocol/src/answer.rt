//! `Answer`: the JSON text of an answer, written piece by piece.
ghost use Rattle.std.specs.Prelude.{◌≡◌, ◌++◌, [], ◌∷◌, decimal, IfOk, OnOk};
ghost use Rattle.std.specs.List.{flat_map};
ghost use Rattle.json.specs.Print.{print};
ghost use Rattle.json.specs.Token.{begin_array, begin_object, end_array, end_object, key, null, number, string};
ghost use Rattle.am_protocol.specs.Answer.{array, flag_member, number_member, text_member};
ghost use Rattle.am_protocol.specs.Lines.{IsOneLine};

use am_model::config::Config;
use json::Writer;
use std::alloc::{AllocError, Global};
use std::marker::Model;

/// The JSON text of an answer. Contracts see its tokens.
///
/// The caller nests them. Where a call is refused memory, some of what it writes can be there.
#[derive(Drop)]
pub struct Answer {
    writer: Writer,
}

impl Model for Answer {
    ghost use Rattle.std.specs.Prelude.{◌≡◌, List, []};
    ghost use Rattle.json.specs.Token.{Token, tokens_code};

    ghost Value = { List Token };

    ghost coded = { tokens_code };

    ghost view = { λ a. a.writer.tokens };

    ghost invariant = { λ a. a.writer.before ≡ [] };
}

/// An answer as one JSON value. Routes and integrations have their names in a configuration.
pub trait ToJson {
    ghost use Rattle.std.specs.Prelude.{List};
    ghost use Rattle.json.specs.Token.{Token};
    ghost use Rattle.am_model.specs.declared.config.Config.{Config};

    ghost tokens: { Config → Self → List Token };

    /// Adds the value.
    fn write(&self, config: &Config, answer: &mut Answer) -> Result<(), AllocError>
        ensures { OnOk result (answer.new ≡ answer.old ++ tokens config.now self.now) };
}

impl Answer {
    /// Returns an answer with nothing in it.
    pub fn new(alloc: Global) -> Answer
        ensures { result ≡ [] }
    {
        Answer {
            writer: Writer::new(Vec::new(alloc)),
        }
    }

    /// Returns the text as one line: its tokens without spaces, and a line feed. Strings have none within: it is escaped.
    pub fn into_line(self) -> Result<Vec<u8>, AllocError>
        ensures text { IfOk result (λ line. line.items ≡ print self ++ 10 ∷ []) }
        ensures one { IfOk result (λ line. IsOneLine line.items) }
    {
        let Answer { writer } = self;
        let mut line = writer.into_inner();
        line.push(b'\n')?;
        Ok(line)
    }

    /// Begins an object.
    pub fn open(&mut self) -> Result<(), AllocError>
        ensures { OnOk result (self.new ≡ self.old ++ begin_object ∷ []) }
    {
        self.writer.begin_object()
    }

    /// Ends an object.
    pub fn close(&mut self) -> Result<(), AllocError>
        ensures { OnOk result (self.new ≡ self.old ++ end_object ∷ []) }
    {
        self.writer.end_object()
    }

    /// Begins an array.
    pub fn open_list(&mut self) -> Result<(), AllocError>
        ensures { OnOk result (self.new ≡ self.old ++ begin_array ∷ []) }
    {
        self.writer.begin_array()
    }

    /// Ends an array.
    pub fn close_list(&mut self) -> Result<(), AllocError>
        ensures { OnOk result (self.new ≡ self.old ++ end_array ∷ []) }
    {
        self.writer.end_array()
    }

    /// Adds the name of a member, whose value follows.
    pub fn key(&mut self, name: &str) -> Result<(), AllocError>
        ensures { OnOk result (self.new ≡ self.old ++ key name.now ∷ []) }
    {
        self.writer.key(name)
    }

    /// Adds a number.
    pub fn number(&mut self, value: u64) -> Result<(), AllocError>
        ensures { OnOk result (self.new ≡ self.old ++ number (decimal value) ∷ []) }
    {
        self.writer.u64(value)
    }

    /// Adds `null`.
    pub fn null(&mut self) -> Result<(), AllocError>
        ensures { OnOk result (self.new ≡ self.old ++ null ∷ []) }
    {
        self.writer.null()
    }

    /// Adds a text.
    pub fn text(&mut self, text: &str) -> Result<(), AllocError>
        ensures { OnOk result (self.new ≡ self.old ++ string text.now ∷ []) }
    {
        self.writer.string(text)
    }

    /// Adds a member that is a text.
    pub fn put_text(&mut self, name: &str, text: &str) -> Result<(), AllocError>
        ensures { OnOk result (self.new ≡ self.old ++ text_member name.now text.now) }
    {
        self.key(name)?;
        self.text(text)
    }

    /// Adds a member that is a number.
    pub fn put_number(&mut self, name: &str, value: u64) -> Result<(), AllocError>
        ensures { OnOk result (self.new ≡ self.old ++ number_member name.now value) }
    {
        self.key(name)?;
        self.number(value)
    }

    /// Adds a member that is `true` or `false`.
    pub fn put_flag(&mut self, name: &str, flag: bool) -> Result<(), AllocError>
        ensures { OnOk result (self.new ≡ self.old ++ flag_member name.now flag) }
    {
        self.key(name)?;
        self.writer.boolean(flag)
    }

    /// Adds a member that is this value.
    pub fn put<T: ToJson>(
        &mut self,
        config: &Config,
        name: &str,
        value: &T,
    ) -> Result<(), AllocError>
        ensures { OnOk result (self.new ≡ self.old ++ key name.now ∷ T.tokens config.now value.now) }
    {
        self.key(name)?;
        value.write(config, self)
    }

    /// Adds a member that is an array of these values.
    pub fn put_list<T: ToJson>(
        &mut self,
        config: &Config,
        name: &str,
        values: &[T],
    ) -> Result<(), AllocError>
        ensures { OnOk result (self.new ≡ self.old ++ key name.now ∷ array (T.tokens config.now) values.now) }
    {
        self.key(name)?;
        self.open_list()?;
        self.add_all(config, values)?;
        self.close_list()
    }

    /// Adds values, one behind the other.
    fn add_all<T: ToJson>(&mut self, config: &Config, values: &[T]) -> Result<(), AllocError>
        ensures { OnOk result (self.new ≡ self.old ++ flat_map (T.tokens config.now) values.now) }
    {
        for value in values {
            value.write(config, self)?;
        }
        Ok(())
    }
}
