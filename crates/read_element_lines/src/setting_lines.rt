// The lines of cstype, deg, g, s and usemtl, and those that are passed over: they change what is in force and no table.
ghost use Rattle.std.specs.Prelude.{◌≡◌, ◌≤◌, length};
ghost use Rattle.model.specs.Parse.{over, rules_of};
ghost use Rattle.read_vertex_lines.specs.Bounds.{InBounds};
ghost use Rattle.read_vertex_lines.specs.Stepping.{QuietStep};
ghost use Rattle.read_element_lines.specs.InForce.{form_step, names_step, setting_of};

use read_settings::{take_degree, take_group, take_material, take_smoothing, take_type};
use read_state::{Form, Names, State};
use read_vertex_lines::LineFault;
use statements::rows::{
    degree_rules, group_rules, material_rules, passed_rules, smoothing_rules, type_rules,
};
use statements::rules::{Rules, allowed};
use text::Parsed;

#[derive(Clone, Copy)]
pub enum Setting {
    BodyType,
    Degree,
    Group,
    Smoothing,
    Material,
    PassedOver,
}

// The row of rules of a setting.
fn rules_for(setting: Setting) -> Rules
    ensures { result ≡ rules_of (setting_of setting) }
{
    match setting {
        Setting::BodyType => type_rules(),
        Setting::Degree => degree_rules(),
        Setting::Group => group_rules(),
        Setting::Smoothing => smoothing_rules(),
        Setting::Material => material_rules(),
        Setting::PassedOver => passed_rules(),
    }
}

fn form_step(state: State, taken: Option<Parsed<Form>>) -> Result<Parsed<State>, LineFault>
    ensures { result ≡ form_step state taken }
{
    let Some(taken) = taken else {
        return Err(LineFault::Unknown);
    };
    Ok(Parsed {
        value: State {
            form: taken.value,
            ..state
        },
        next: taken.next,
    })
}

fn names_step(state: State, taken: Option<Parsed<Names>>) -> Result<Parsed<State>, LineFault>
    ensures { result ≡ names_step state taken }
{
    let Some(taken) = taken else {
        return Err(LineFault::Unknown);
    };
    Ok(Parsed {
        value: State {
            names: taken.value,
            ..state
        },
        next: taken.next,
    })
}

fn passed_line(text: &[u8], at: usize, state: State) -> Result<Parsed<State>, LineFault>
    requires { at ≤ length text.now }
    ensures { state.«open».kind ≡ 0 → QuietStep over text.now at state result }
{
    match text::scan_line(text, at) {
        Ok(words) => Ok(Parsed {
            value: state,
            next: words.next,
        }),
        Err(_) => Err(LineFault::Unknown),
    }
}

// A setting's line, from just after its keyword on.
pub fn setting_line(
    setting: Setting,
    text: &[u8],
    at: usize,
    state: State,
) -> Result<Parsed<State>, LineFault>
    requires { InBounds text.now at state }
    ensures { QuietStep (setting_of setting) text.now at state result }
{
    let rules = rules_for(setting);
    if !allowed(rules.standing, state.open.kind, false) {
        return Err(LineFault::Unknown);
    }
    let form = state.form;
    let names = state.names;
    match setting {
        Setting::BodyType => form_step(state, take_type(text, at, form)),
        Setting::Degree => form_step(state, take_degree(text, at, form)),
        Setting::Group => names_step(state, take_group(text, at, names)),
        Setting::Smoothing => names_step(state, take_smoothing(text, at, names)),
        Setting::Material => names_step(state, take_material(text, at, names)),
        Setting::PassedOver => passed_line(text, at, state),
    }
}
