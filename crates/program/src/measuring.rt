//! Measures a trace that was read into memory.
ghost use Rattle.std.specs.Prelude.{◌≡◌};
ghost use Rattle.trace.specs.LinesProcessed.{reads_failed, writes_failed};
ghost use Rattle.program.specs.Texts.{TextMeasured};

use size_classes::Config;
use sizing::{Measured, Meter};
use std::alloc::Global;
use trace::{MemorySource, PlayFault, survey_run};

/// Measures the trace of a text on a new heap.
pub fn measure_text(alloc: Global, config: &Config, text: &[u8]) -> Result<Measured, PlayFault>
    ensures measured { TextMeasured config.now text.now result }
    ensures reads { reads_failed result ≡ 0 }
    ensures writes { writes_failed result ≡ 0 }
{
    let mut source = MemorySource::new(text);
    survey_run::<Meter, _>(alloc, config, &mut source)
}
