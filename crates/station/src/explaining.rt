// Why an event of the station's log is not among the reports of an element (document 02 (f)).
ghost use Rattle.std.specs.Prelude.{◌≡◌};
ghost use Rattle.units.specs.Time.{elapsed_since};
ghost use Rattle.explanations.specs.Explanations.{explanation, explanation_read};
ghost use Rattle.station.specs.Views.{view};

use crate::Station;
use explanations::{Explanation, explain};
use octets::Refusal;

impl Station {
    // Of the log as it stands: no reading, and nothing is dropped.
    pub fn explain(
        self,
        element: &[u8],
        count: usize,
        position: usize,
    ) -> Result<Explanation, Refusal>
        ensures { explanation_read result ≡ explanation elapsed_since (view self).log element.now count position }
    {
        explain(self.log, element, count, position)
    }
}
