//! How long the components are there that controllers use, if no controller is active.

ghost use Rattle.std.specs.Prelude.{◌≡◌, ◌<◌, if◌then◌else◌, nat_lt, length, map, slice_get, All, IfOk};
ghost use Rattle.std.specs.Option.{option_map_or};
ghost use Rattle.chain_order.specs.Links.{linked};
ghost use Rattle.cm_model.specs.Components.{is_available};
ghost use Rattle.spawn_plan.specs.Spans.{up_to_first, span_of, spans_of, least_span, least_of_rows};

use cm_document::{CompDesc, Life};
use fixed_num::Memory;
use std::alloc::Global;
use switch_plan::Relations;

/// With how many cycles from the first on, at most so many, all components are there that these controllers use.
pub fn common_span(
    alloc: Global,
    components: &[CompDesc],
    relations: &Relations,
    places: &[u32],
    count: u64,
) -> Result<u64, Memory>
    requires { All (λ place. place < length relations.now.components) places.now }
    ensures { IfOk result (λ span. span ≡ least_of_rows (spans_of count components.now) count
        (map (linked relations.now.components) places.now)) }
{
    let spans = spans_of(alloc, components, count)?;
    Ok(least_of_rows(&spans, relations, places, count))
}

/// The span of each component.
fn spans_of(alloc: Global, components: &[CompDesc], count: u64) -> Result<Vec<u64>, Memory>
    ensures { IfOk result (λ spans. spans.items ≡ spans_of count components.now) }
{
    let mut spans = Vec::new(alloc);
    for component in components {
        spans.push(span_of(component, count))?;
    }
    Ok(spans)
}

/// With how many cycles a component is there. A failure takes it away behind its cycle; a component that stays
/// available then is there for good, though no description has one.
fn span_of(component: &CompDesc, count: u64) -> u64
    ensures { result ≡ span_of count component.now }
{
    if !is_available(component.initial) {
        return 0;
    }
    if is_available(component.on_error) {
        return count;
    }
    let read = up_to_first(count, component.fail_read.as_slice());
    match component.initial {
        Life::Active => up_to_first(read, component.fail_write.as_slice()),
        _ => read,
    }
}

/// Whether the interfaces of a component in this state are available.
fn is_available(life: Life) -> bool
    ensures { result ≡ is_available life }
{
    match life {
        Life::Inactive | Life::Active => true,
        Life::Unconfigured | Life::Finalized => false,
    }
}

/// So many cycles, or as many as go on to the first of these, with it.
fn up_to_first(count: u64, cycles: &[u64]) -> u64
    ensures { result ≡ up_to_first count cycles.now }
{
    let mut least = count;
    for cycle in cycles {
        if *cycle < least {
            least = *cycle + 1;
        }
    }
    least
}

/// The least of this and of the spans of all components that these controllers use.
fn least_of_rows(spans: &[u64], relations: &Relations, places: &[u32], count: u64) -> u64
    requires { All (λ place. place < length relations.now.components) places.now }
    ensures { result ≡ least_of_rows spans.now count (map (linked relations.now.components) places.now) }
{
    let mut least = count;
    for place in places {
        least = least_span(spans, least, relations.components(*place));
    }
    least
}

/// The least of this and of the spans of these components.
fn least_span(spans: &[u64], most: u64, components: &[usize]) -> u64
    ensures { result ≡ least_span spans.now most components.now }
{
    let mut least = most;
    for component in components {
        least = lowered(least, span_at(spans, *component));
    }
    least
}

/// The span of the component at this place.
fn span_at(spans: &[u64], component: usize) -> Option<u64>
    ensures { result ≡ slice_get spans.now component }
{
    spans.get(component).copied()
}

/// The less of the two, if there are two.
fn lowered(least: u64, span: Option<u64>) -> u64
    ensures { result ≡ option_map_or (λ span. if nat_lt span least then span else least) span least }
{
    match span {
        Some(span) if span < least => span,
        _ => least,
    }
}
