//! A writer of tokens over a buffer of its own.
ghost use Rattle.std.specs.Prelude.{◌≡◌, ◌∷◌, ◌++◌, [], List, ℕ, IsTrue, OnOk, Some, decimal};
ghost use Rattle.std.specs.Float.{float_is_finite};
ghost use Rattle.std.specs.Fmt.{signed_decimal};
ghost use Rattle.std.specs.Str.{IsUtf8};
ghost use Rattle.fast_float.specs.Parse.{parse_float};
ghost use Rattle.json.specs.Lex as lex;
ghost use Rattle.json.specs.Print as json;
ghost use Rattle.json.specs.Token.{begin_array, begin_object, boolean, end_array, end_object, key, null, number, string};
ghost use Rattle.json.specs.Written.{Writes};
ghost use Rattle.spa_text.specs.Line.{AreGood, HasNoEnd};

use json::Writer;
use ryu::Float;
use std::alloc::AllocError;
use std::marker::Model;

/// A writer of tokens over a buffer of its own.
#[derive(Drop)]
pub(crate) struct Out {
    writer: Writer,
}

impl Model for Out {
    ghost use Rattle.std.specs.Prelude.{◌≡◌, []};
    ghost use Rattle.json.specs.Written.{Written, written_code};
    ghost use Rattle.spa_text.specs.Line.{AreGood};

    ghost Value = { Written };

    ghost coded = { written_code };

    ghost view = { λ o. o.writer };

    ghost invariant = { λ o. (o.writer.before ≡ []) × AreGood o.writer.tokens };
}

impl Out {
    /// A writer without tokens yet, whose text goes to this empty buffer.
    pub(crate) fn new(buffer: Vec<u8>) -> Out
        requires { buffer.items ≡ [] }
        ensures { result.tokens ≡ [] }
    {
        Out {
            writer: Writer::new(buffer),
        }
    }

    /// The text of the tokens.
    pub(crate) fn into_bytes(self) -> Vec<u8>
        ensures items { result.items ≡ json.print self.tokens }
        ensures reads_back { lex.tokens result.items ≡ self.tokens }
        ensures utf8 { IsUtf8 result.items }
        ensures line { HasNoEnd result.items }
        ensures good { AreGood self.tokens }
    {
        let Out { writer } = self;
        writer.into_inner()
    }

    /// The brace that opens an object.
    #[tactic(auto, using(crate::proofs::Relaid::kept_good))]
    pub(crate) fn begin_object(&mut self) -> Result<(), AllocError>
        ensures { Writes result self.old self.new begin_object }
    {
        self.writer.begin_object()
    }

    /// The brace that closes it.
    #[tactic(auto, using(crate::proofs::Relaid::kept_good))]
    pub(crate) fn end_object(&mut self) -> Result<(), AllocError>
        ensures { Writes result self.old self.new end_object }
    {
        self.writer.end_object()
    }

    /// The bracket that opens an array.
    #[tactic(auto, using(crate::proofs::Relaid::kept_good))]
    pub(crate) fn begin_array(&mut self) -> Result<(), AllocError>
        ensures { Writes result self.old self.new begin_array }
    {
        self.writer.begin_array()
    }

    /// The bracket that closes it.
    #[tactic(auto, using(crate::proofs::Relaid::kept_good))]
    pub(crate) fn end_array(&mut self) -> Result<(), AllocError>
        ensures { Writes result self.old self.new end_array }
    {
        self.writer.end_array()
    }

    /// A key.
    #[tactic(auto, using(crate::proofs::Relaid::kept_good))]
    pub(crate) fn key(&mut self, name: &str) -> Result<(), AllocError>
        ensures { Writes result self.old self.new (key name.now) }
    {
        self.writer.key(name)
    }

    /// A text.
    #[tactic(auto, using(crate::proofs::Relaid::kept_good))]
    pub(crate) fn string(&mut self, text: &str) -> Result<(), AllocError>
        ensures { Writes result self.old self.new (string text.now) }
    {
        self.writer.string(text)
    }

    /// A number without a sign.
    #[tactic(auto, using(crate::proofs::Relaid::kept_good))]
    pub(crate) fn u64(&mut self, n: u64) -> Result<(), AllocError>
        ensures { Writes result self.old self.new (number (decimal n)) }
    {
        self.writer.u64(n)
    }

    /// A number.
    #[tactic(auto, using(crate::proofs::Relaid::kept_good))]
    pub(crate) fn i64(&mut self, n: i64) -> Result<(), AllocError>
        ensures { Writes result self.old self.new (number (signed_decimal n)) }
    {
        self.writer.i64(n)
    }

    /// A finite float.
    pub(crate) fn float<F: Float>(&mut self, float: F) -> Result<(), AllocError>
        requires { IsTrue (float_is_finite (F.value float)) }
        ensures { OnOk result ((s : List ℕ) × (self.new.tokens ≡ self.old.tokens ++ number s ∷ [])
            × (parse_float F.format s ≡ Some (F.value float))) }
    {
        self.writer.float(float)
    }

    /// True or false.
    #[tactic(auto, using(crate::proofs::Relaid::kept_good))]
    pub(crate) fn boolean(&mut self, flag: bool) -> Result<(), AllocError>
        ensures { Writes result self.old self.new (boolean flag) }
    {
        self.writer.boolean(flag)
    }

    /// Null.
    #[tactic(auto, using(crate::proofs::Relaid::kept_good))]
    pub(crate) fn null(&mut self) -> Result<(), AllocError>
        ensures { Writes result self.old self.new null }
    {
        self.writer.null()
    }
}
