//! The driver whose errors keep items.
ghost use Rattle.combine_base.specs.Parser.Meaning.{IsSingle, MeansSame};
ghost use Rattle.combine_base.specs.Parser.AnswersCalls.{ParsesCall};
ghost use Rattle.combine_error.specs.Easy.{listed_errors};

use crate::easy::{Errors, Stream as EasyStream};
use combine_base::parser::Parser;
use combine_base::stream::Stream;
use std::alloc::Global;

/// Parses with errors that keep items.
///
/// Every parser over an `easy::Stream` has it.
pub trait EasyParser<S: Stream>: Parser<EasyStream<S>>
where
    S::Token: PartialEq,
    S::Range: PartialEq,
{
    /// Parses from the start, and returns the value and the input that is left.
    ///
    /// It is `parse` over an `easy::Stream`.
    ///
    /// The items of errors take their memory from `alloc`.
    ///
    /// # Errors
    ///
    /// The error says what stood there and what was expected. An item that finds no memory makes it an error of kind `Memory`.
    ///
    /// # Differences from combine
    ///
    /// It takes an allocator.
    ///
    /// # Examples
    ///
    /// ```
    /// fn sum(
    ///     alloc: Global,
    ///     text: &'static str,
    /// ) -> Result<((char, char, char), &'static str), Errors<char, &'static str, Left>> {
    ///     (digit(), char('+'), digit()).easy_parse(alloc, text)
    /// }
    /// ```
    ///
    /// Of `"1+?"` the error says ``Unexpected `?` `` and `Expected digit`.
    final fn easy_parse(
        &mut self,
        alloc: Global,
        input: S,
    ) -> Result<(Self::Output, S), Errors<S::Token, S::Range, S::Position>>
        requires { Self.lawful self.old }
        ensures lawful { Self.lawful self.new }
        ensures same { MeansSame (Self.meaning self.old) (Self.meaning self.new) }
        ensures single { Self.determined self.old → IsSingle (Self.meaning self.old).whole }
        ensures results { ParsesCall S.StreamOnce (listed_errors S.Token.eq S.Range.eq) Self.PartialState.is_default (Self.meaning self.old) input result }
    {
        match self.parse(EasyStream::new(alloc, input)) {
            Ok((value, left)) => Ok((value, left.into_inner())),
            Err(error) => Err(error),
        }
    }
}

impl<S: Stream, P: Parser<EasyStream<S>>> EasyParser<S> for P
where
    S::Token: PartialEq,
    S::Range: PartialEq,
{}
