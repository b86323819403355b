//! A JSON object, written a member behind another.
ghost use Rattle.std.specs.Prelude.{◌≡◌, ◌++◌, [], ◌∷◌, IfOk, OnOk, decimal, string_bytes};
ghost use Rattle.json.specs.Print.{IsPrintable};
ghost use Rattle.json.specs.Reads.{token_of};
ghost use Rattle.json.specs.Token as tokens;
ghost use Rattle.qa_explain.specs.members.Object as text;

use itoa::Buffer;
use json::{Token, Writer, is_number};
use qa_base::Span;
use std::alloc::{AllocError, Global};
use std::marker::Model;

/// A JSON object of which some members are written, or a list or an object in one of them.
///
/// Contracts see it as the tokens of its text. `AllocError` comes from each call where it is out of
/// memory; the object is of no use then.
#[derive(Drop)]
pub struct Object {
    alloc: Global,
    writer: Writer,
}

impl Model for Object {
    ghost use Rattle.std.specs.Prelude.{◌≡◌, List, []};
    ghost use Rattle.json.specs.Token.{Token, tokens_code};

    ghost Value = { List Token };

    ghost coded = { tokens_code };

    ghost view = { λ o. o.writer.tokens };

    ghost invariant = { λ o. o.writer.before ≡ [] };
}

impl Object {
    /// An object with no member yet.
    #[tactic(auto, unfolding(crate::specs::members::Object::opened))]
    pub fn new(alloc: Global) -> Result<Object, AllocError>
        ensures { IfOk result (λ object. object ≡ text.opened) }
    {
        let mut object = Object::bare(alloc);
        object.token(Token::BeginObject)?;
        Ok(object)
    }

    /// Members that are to stand in another object: they have no braces. None is written yet.
    pub fn bare(alloc: Global) -> Object
        ensures { result ≡ [] }
    {
        Object {
            alloc,
            writer: Writer::new(Vec::new(alloc)),
        }
    }

    fn token(&mut self, token: Token<'_>) -> Result<(), AllocError>
        requires { IsPrintable (token_of token) }
        ensures { OnOk result (self.new ≡ self.old ++ token_of token.entry ∷ []) }
    {
        self.writer.token(token)
    }

    /// An integer in the list.
    pub fn integer(&mut self, number: u128) -> Result<(), AllocError>
        ensures { OnOk result (self.new ≡ self.old ++ tokens.number (decimal number) ∷ []) }
    {
        let mut buffer = Buffer::new();
        let digits = buffer.format(number);
        // No clause says that the digits of an integer are a number of JSON, so it is tested.
        if !is_number(digits) {
            return Err(AllocError);
        }
        self.token(Token::Number(digits))
    }

    // ---- members

    /// A member whose value is an integer.
    #[tactic(auto, unfolding(crate::specs::members::Object::number_at))]
    pub fn number(&mut self, key: &str, number: u128) -> Result<(), AllocError>
        ensures { OnOk result (self.new ≡ self.old ++ text.number_at key.now number) }
    {
        self.token(Token::Key(key))?;
        self.integer(number)
    }

    /// A member whose value is a string.
    #[tactic(auto, unfolding(crate::specs::members::Object::string_at))]
    pub fn string(&mut self, key: &str, string: &str) -> Result<(), AllocError>
        ensures { OnOk result (self.new ≡ self.old ++ text.string_at key.now string.now) }
    {
        self.token(Token::Key(key))?;
        self.token(Token::String(string))
    }

    /// A member whose value is a truth value.
    #[tactic(auto, unfolding(crate::specs::members::Object::flag_at))]
    pub fn flag(&mut self, key: &str, flag: bool) -> Result<(), AllocError>
        ensures { OnOk result (self.new ≡ self.old ++ text.flag_at key.now flag) }
    {
        self.token(Token::Key(key))?;
        self.token(Token::Bool(flag))
    }

    /// A member with no value.
    #[tactic(auto, unfolding(crate::specs::members::Object::null_at))]
    pub fn null(&mut self, key: &str) -> Result<(), AllocError>
        ensures { OnOk result (self.new ≡ self.old ++ text.null_at key.now) }
    {
        self.token(Token::Key(key))?;
        self.token(Token::Null)
    }

    /// The same of an integer that may be absent.
    pub fn some_number(&mut self, key: &str, number: Option<u128>) -> Result<(), AllocError>
        ensures { OnOk result (self.new ≡ self.old ++ text.some_number_at key.now number) }
    {
        match number {
            None => self.null(key),
            Some(number) => self.number(key, number),
        }
    }

    /// A member whose value is an amount, in the unit that stands at the end of its key.
    #[tactic(auto, unfolding(crate::specs::members::Object::amount_at))]
    pub fn amount(&mut self, key: &str, unit: &str, amount: u128) -> Result<(), AllocError>
        ensures { OnOk result (self.new ≡ self.old ++ text.amount_at key.now unit.now amount) }
    {
        let key = format!(in self.alloc; "{key}_{unit}")?;
        self.number(key.as_str(), amount)
    }

    /// The same of an amount that may be absent.
    #[tactic(auto, unfolding(crate::specs::members::Object::some_amount_at))]
    pub fn some_amount(
        &mut self,
        key: &str,
        unit: &str,
        amount: Option<u128>,
    ) -> Result<(), AllocError>
        ensures { OnOk result (self.new
            ≡ self.old ++ text.some_amount_at key.now unit.now amount) }
    {
        let key = format!(in self.alloc; "{key}_{unit}")?;
        self.some_number(key.as_str(), amount)
    }

    /// A member whose value is the list of runs, each a list of its least and its greatest number.
    #[tactic(auto, unfolding(crate::specs::members::Object::runs_at))]
    pub fn runs(&mut self, key: &str, runs: &[Span]) -> Result<(), AllocError>
        ensures { OnOk result (self.new ≡ self.old ++ text.runs_at key.now runs.now) }
    {
        self.begin_list(key)?;
        self.each_run(runs)?;
        self.end_list()
    }

    fn each_run(&mut self, runs: &[Span]) -> Result<(), AllocError>
        ensures { OnOk result (self.new ≡ self.old ++ text.each_run runs.now) }
    {
        for run in runs {
            self.run(*run)?;
        }
        Ok(())
    }

    #[tactic(auto, unfolding(crate::specs::members::Object::run_tokens))]
    fn run(&mut self, run: Span) -> Result<(), AllocError>
        ensures { OnOk result (self.new ≡ self.old ++ text.run_tokens run) }
    {
        self.token(Token::BeginArray)?;
        self.integer(u128::from(run.lo().get()))?;
        self.integer(u128::from(run.hi().get()))?;
        self.token(Token::EndArray)
    }

    // ---- lists of objects

    /// Begins a member whose value is a list.
    #[tactic(auto, unfolding(crate::specs::members::Object::list_begin))]
    pub fn begin_list(&mut self, key: &str) -> Result<(), AllocError>
        ensures { OnOk result (self.new ≡ self.old ++ text.list_begin key.now) }
    {
        self.token(Token::Key(key))?;
        self.token(Token::BeginArray)
    }

    /// Ends the list.
    #[tactic(auto, unfolding(crate::specs::members::Object::list_end))]
    pub fn end_list(&mut self) -> Result<(), AllocError>
        ensures { OnOk result (self.new ≡ self.old ++ text.list_end) }
    {
        self.token(Token::EndArray)
    }

    /// Begins an object in the list.
    #[tactic(auto, unfolding(crate::specs::members::Object::opened))]
    pub fn begin_object(&mut self) -> Result<(), AllocError>
        ensures { OnOk result (self.new ≡ self.old ++ text.opened) }
    {
        self.token(Token::BeginObject)
    }

    /// Ends it.
    #[tactic(auto, unfolding(crate::specs::members::Object::closed))]
    pub fn end_object(&mut self) -> Result<(), AllocError>
        ensures { OnOk result (self.new ≡ self.old ++ text.closed) }
    {
        self.token(Token::EndObject)
    }

    // ---- the end

    /// The object's text alone, where no list is open.
    pub fn into_text(mut self) -> Result<Vec<u8>, AllocError>
        ensures { IfOk result (λ bytes. bytes.items ≡ text.text_of self) }
    {
        self.end_object()?;
        Ok(self.into_bytes())
    }

    /// The text as it stands, with no brace behind it, as a string.
    pub fn into_string(self) -> Result<String, AllocError>
        ensures { IfOk result (λ string. string_bytes string ≡ text.text_of_all self) }
    {
        let alloc = self.alloc;
        String::from_utf8_lossy(alloc, &self.writer.into_inner())
    }

    /// The text as it stands, with no brace behind it.
    pub fn into_bytes(self) -> Vec<u8>
        ensures { result.items ≡ text.text_of_all self }
    {
        self.writer.into_inner()
    }
}
