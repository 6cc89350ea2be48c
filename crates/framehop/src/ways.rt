//! Steps by ways out of functions, before what a module's tables say or after it.

ghost use Rattle.std.specs.Prelude.{◌≡◌, IfSome};
ghost use Rattle.framehop_loads.specs.UnwindDataViews.{format_view};
ghost use Rattle.framehop_rules.specs.UnwindResults.{HasValidRule};
ghost use Rattle.framehop.specs.MethodViews.{result_or_way};
ghost use Rattle.framehop.specs.WayAttempts.{goes_after, goes_before, goes_on_at, way_after, way_at, way_before};

use framehop_code_ways::{WayUnwinding, caller_by_way_in_text};
use framehop_compact::CompactUnwindInfoUnwinding;
use framehop_loads::{ModuleFormat, ModuleUnwindData};
use framehop_modules::SectionBytes;
use framehop_rules::UnwindResult;
use framehop_unwinder::UnwindFailure;

// Whether a frame of a module with this format goes by a way before what the tables say.
fn goes_before<D: SectionBytes>(format: &ModuleFormat<D>, is_first_frame: bool) -> bool
    ensures { result ≡ goes_before (format_view D.content format.now) is_first_frame }
{
    if is_first_frame {
        return true;
    }
    match format {
        ModuleFormat::Pe(_) => true,
        _ => false,
    }
}

// Whether it goes by a way where the tables say nothing.
fn goes_after<D: SectionBytes>(format: &ModuleFormat<D>, is_first_frame: bool) -> bool
    ensures { result ≡ goes_after (format_view D.content format.now) is_first_frame }
{
    match format {
        ModuleFormat::Compact(_, _) => !is_first_frame,
        _ => false,
    }
}

// Where a frame goes on: a later one behind its call, whose last byte is at the relative address.
fn goes_on_at(relative_address: u32, is_first_frame: bool) -> u64
    ensures { result ≡ goes_on_at relative_address is_first_frame }
{
    if is_first_frame {
        relative_address.into()
    } else {
        u64::from(relative_address) + 1
    }
}

// The rule of a way out of the function of a frame at a relative address, where the module's load asks for it and there are bounds of the
// code around the address.
fn rule_of_way<A: WayUnwinding + CompactUnwindInfoUnwinding, D: SectionBytes + Drop>(
    unwind_data: &ModuleUnwindData<D>,
    relative_address: u32,
    is_first_frame: bool,
) -> Option<A::UnwindRule>
    ensures rule { result ≡ way_at A.first_rule unwind_data.now relative_address is_first_frame }
    ensures valid { IfSome result A.UnwindRule.is_valid }
{
    let code = unwind_data.code()?;
    let bounds = unwind_data.way_bounds::<A>(relative_address)?;
    let at = goes_on_at(relative_address, is_first_frame);
    caller_by_way_in_text::<A>(code, bounds, at, is_first_frame)
}

/// The rule of a way out of the function of a frame, if it goes by that before what the tables say.
#[inline(always)]
pub(crate) fn rule_before<A: WayUnwinding + CompactUnwindInfoUnwinding, D: SectionBytes + Drop>(
    unwind_data: &ModuleUnwindData<D>,
    relative_address: u32,
    is_first_frame: bool,
) -> Option<A::UnwindRule>
    ensures rule { result ≡ way_before A.first_rule unwind_data.now relative_address is_first_frame }
    ensures valid { IfSome result A.UnwindRule.is_valid }
{
    if !goes_before(unwind_data.format(), is_first_frame) {
        return None;
    }
    rule_of_way::<A, D>(unwind_data, relative_address, is_first_frame)
}

// The rule of a way out of the function of a frame, if it goes by that where the tables say nothing.
fn rule_after<A: WayUnwinding + CompactUnwindInfoUnwinding, D: SectionBytes + Drop>(
    unwind_data: &ModuleUnwindData<D>,
    relative_address: u32,
    is_first_frame: bool,
) -> Option<A::UnwindRule>
    ensures rule { result ≡ way_after A.first_rule unwind_data.now relative_address is_first_frame }
    ensures valid { IfSome result A.UnwindRule.is_valid }
{
    if !goes_after(unwind_data.format(), is_first_frame) {
        return None;
    }
    rule_of_way::<A, D>(unwind_data, relative_address, is_first_frame)
}

/// What the tables say of a frame; where they say nothing, the rule of a way out of its function, if it goes by that.
pub(crate) fn said_or_rule<A: WayUnwinding + CompactUnwindInfoUnwinding, D: SectionBytes + Drop>(
    said: Result<UnwindResult<A::UnwindRule>, UnwindFailure>,
    unwind_data: &ModuleUnwindData<D>,
    relative_address: u32,
    is_first_frame: bool,
) -> Result<UnwindResult<A::UnwindRule>, UnwindFailure>
    requires valid { HasValidRule A.UnwindRule.is_valid said }
    ensures said { result
        ≡ result_or_way said (way_after A.first_rule unwind_data.now relative_address is_first_frame) }
    ensures valid { HasValidRule A.UnwindRule.is_valid result }
{
    match said {
        Err(UnwindFailure::OfModule) => match rule_after::<A, D>(
            unwind_data,
            relative_address,
            is_first_frame,
        ) {
            Some(rule) => Ok(UnwindResult::ExecRule(rule)),
            None => Err(UnwindFailure::OfModule),
        },
        other => other,
    }
}
