// The record of a component, and a span absorbed by it.
ghost use Rattle.std.specs.Prelude.{◌≡◌, max};
ghost use Rattle.labelling.specs.stages.Tallying.{SpanTallyable, tallied};

use crate::component::Component;
use crate::record::{absorb_words, encode};
use crate::span::Span;
use memory::COMPONENT_WORDS;

// The dots of a span absorbed by the record of the component with this number: a new one where `count` have one and this is past
// them. The span lies in row y and starts in column x. Answers how many have a record then.
pub fn tally_span(
    components: &mut [u32],
    number: usize,
    count: usize,
    x: usize,
    span: Span,
    y: usize,
) -> usize
    requires { SpanTallyable components.old number count x span.last span.dots span.sum y }
    ensures { (components.new ≡ tallied components.old number count x span.last span.dots span.sum y) × (result ≡ max count number) }
{
    let at = (number - 1) * COMPONENT_WORDS;
    let last = span.last as u32;
    let dots = span.dots as u32;
    let sum = span.sum as u64;
    if count < number {
        let after = Component::none().absorb_span(x as u32, last, dots, sum, y as u32);
        encode(&mut components[at..at + COMPONENT_WORDS], after);
        return number;
    }
    absorb_words(
        &mut components[at..at + COMPONENT_WORDS],
        x as u32,
        last,
        dots,
        sum,
        y as u32,
    );
    count
}
