//! Lines of text, class after class.
ghost use Rattle.std.specs.Prelude.{◌≡◌, ℕ, ◌<◌, List, Result, IfOk, String, string_bytes};
ghost use Rattle.std.specs.declared.alloc.Global.{Global};
ghost use Rattle.std.specs.declared.alloc.AllocError.{AllocError};
ghost use Rattle.size_classes.specs.declared.class.TheConstants.{CLASSES};
ghost use Rattle.inspector.specs.ClassLines.{class_lines};

use size_classes::{CLASSES, Class};
use std::alloc::{AllocError, Global};

/// Returns the lines of all classes; a class may have none.
pub(crate) fn class_lines<F: Fn(Class) -> Result<String, AllocError>>(
    alloc: Global,
    line: F,
) -> Result<String, AllocError>
    requires { F.IsAlwaysCallable line }
    ensures { (lines : ℕ → List ℕ)
        → ((class : ℕ) (told : Result (String Global) AllocError) → class < CLASSES → F.post line class told
        → IfOk told (λ text. string_bytes text ≡ lines class))
        → IfOk result (λ text. string_bytes text ≡ class_lines lines CLASSES) }
{
    let mut text = String::new(alloc);
    for number in 0..CLASSES {
        let line = line(Class::new(number as u8))?;
        text.push_str(line.as_str())?;
    }
    Ok(text)
}
