//! Laws of the language, which say in its own words what the definitions come to. The functions do nothing:
//! each is there for what it ensures.
ghost use Rattle.std.specs.Prelude.{◌≡◌, ℕ, true, List, [], ◌∷◌, ◌++◌, Ok, Err, IfOk, IfErr};
ghost use Rattle.std.specs.Str.Lines.{lines};
ghost use Rattle.mpm_config.specs.Correction.{after_corrections};
ghost use Rattle.conf_text.specs.Line.{logical_lines, Line, Rise};
ghost use Rattle.mpm_config.specs.Numbers.{IsInRange};
ghost use Rattle.mpm_config.specs.Reading.{after_line, after_lines, and_then, config_of, hides, settings_of, IsAtLine, Progress, ReplacesInHost, SetsNothing};
ghost use Rattle.mpm_config.specs.TypeLaws.{HavePrintable};
ghost use Rattle.mpm_config.specs.Settings.{with_setting, HostSettings, IsSameDirective, Settings};
ghost use Rattle.mpm_base.specs.Shape.{is_in_bounds};
ghost use Rattle.mpm_config.specs.Shape.{shape_of_numbers};
ghost use Rattle.mpm_config.specs.declared.fault.ConfFault.{ConfFault};
ghost use Rattle.mpm_config.specs.declared.numbers.Numbers.{Numbers};
ghost use Rattle.mpm_config.specs.declared.setting.Setting.{Setting};

/// A later setting of a directive replaces an earlier one, outside of the sections of hosts and in one of them.
pub fn later_settings_replace()
    ensures outer { (s : Settings) (v w : List ℕ) (a b : Setting) → IsSameDirective a b
        → with_setting (with_setting s v a) w b ≡ with_setting s w b }
    ensures host { (h : HostSettings) (v w : List ℕ) (a b : Setting) → IsSameDirective a b
        → ReplacesInHost h v w a b }
{}

/// A line in a part that is skipped sets nothing, neither outside of the sections of hosts nor in one of them.
pub fn skipped_lines_set_nothing()
    ensures { (p : Progress) (l : Line) → hides p.sections ≡ true
        → IfOk (after_line p l) (SetsNothing p) }
{}

/// The lines of a text are numbered upwards from 1, a line is refused by its own number, and the first line that
/// is refused decides, whatever follows it.
pub fn first_refusal_decides()
    ensures upwards { (text : List ℕ) → Rise 1 (logical_lines text) }
    ensures own { (p : Progress) (l : Line) → IfErr (after_line p l) (IsAtLine l.number) }
    ensures first { (p q : Progress) (before later : List Line) (l : Line) (e : ConfFault)
        → after_lines p before ≡ Ok q → after_line q l ≡ Err e
        → settings_of p (before ++ l ∷ later) ≡ Err e }
{}

/// Numbers in their ranges are, once they are corrected, those of a shape in its bounds.
pub fn corrected_numbers_are_in_bounds()
    ensures { (n : Numbers) → IsInRange n
        → is_in_bounds (shape_of_numbers (after_corrections n)) ≡ true }
{}

/// No type that a text adds, and no character set that it names, has a byte by which a line could end: so none of them ends a line of a
/// response.
pub fn configured_types_are_printable()
    ensures { (text : List ℕ) → IfOk (config_of text) (λ read. HavePrintable read.config.types) }
{}
