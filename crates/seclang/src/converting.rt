// Span words that hosts have stored.
ghost use Rattle.spans.specs.Conversion.{from_old, to_old};
ghost use Rattle.spans.specs.Promises.{answer_given};
ghost use Rattle.seclang.specs.Told.{Told};

use crate::telling::tell_converted;

pub fn seclang_span_from_old(word: u64, values: &mut [u64]) -> u64
    ensures { Told (answer_given (from_old word)) values.old values.new result }
{
    tell_converted(spans::span_from_old(word), values)
}

pub fn seclang_span_to_old(word: u64, values: &mut [u64]) -> u64
    ensures { Told (answer_given (to_old word)) values.old values.new result }
{
    tell_converted(spans::span_to_old(word), values)
}
