//! Laws of what a watched run of the image of units reports, each the contract of a function that does nothing.
ghost use Rattle.std.specs.Prelude.{◌≡◌, ◌≢◌, ◌<◌, ◌≤◌, ℕ, List, [], length, map, All, Ok, nat_eq};
ghost use Rattle.std.specs.List.{IsDistinct};
ghost use Rattle.cw_i86.specs.{State.State, MachineRun.Event, MachineRun.Observed, MachineRun.IsStart, MachineRun.FitsInput, MachineRun.Shows};
ghost use Rattle.cw_unit.specs.{declared.unit.Unit.Unit as SourceUnit, declared.layout.Limits.Limits, Allocation.storage_map};
ghost use Rattle.cw_view.specs.Reading.{statement_in};
ghost use Rattle.cw_place.specs.Placement.{IsLimits};
ghost use Rattle.cw_link.specs.Contents.{values_in};
ghost use Rattle.cw_object.specs.ObjectContents.{payloads_of};
ghost use Rattle.cw_traced.specs.{Lines.Lines.unit_lines, Places.Reported.MeansInUnits, Places.Reported.IsNamed, Places.Reported.ReportsUnits};
ghost use Rattle.cw_build.specs.{Compiled.IsCompilable, Compiled.object_of, Linking.Links, Linking.image_of};
ghost use Rattle.cw_sim.specs.Statements.{image_places};
ghost use Rattle.cw_stop.specs.declared.stopping.Stop.{Stop};
ghost use Rattle.cw_trace.specs.{Reports.Reports, Statements.places_of, declared.watch.Watch.Watch};
ghost use Rattle.cw_watch.specs.Watching.{stop_places};

use crate::laws::lines::lines_of_code;
use cw_build_laws::laws::images::loaded;
use cw_obj::laws::object_written;
use cw_object::laws::{object_of_unit, writable};
use cw_run86::laws::shows_the_run;
use cw_sim::laws::{beginnings, preservation};
use cw_trace::laws::reports_of_begun;

/// The object of a unit tells the line of each statement that is begun as a whole, in the order in which their code stands.
pub fn lines_told()
    ensures { (u : SourceUnit) → IsCompilable u → map (λ s. s.1) (values_in statement_in (payloads_of 10 (object_of u))) ≡ unit_lines u }
{
    writable();
    object_of_unit();
    object_written();
    lines_of_code();
}

/// The places that a stop has in the objects of units are those of the image at which a statement of that segment and line begins. Where no
/// unit has the name, there are none.
pub fn places_told()
    ensures told { (us : List SourceUnit) (limits : Limits) (segment : ℕ) (stop : Stop) → All IsCompilable us
        → Links us limits → IsNamed us segment stop.segment →
        stop_places stop (map object_of us) ≡ places_of segment stop.line (image_places us (storage_map us) limits) }
    ensures named { (us : List SourceUnit) (stop : Stop) → All IsCompilable us
        → 0 < length (stop_places stop (map object_of us)) → (segment : ℕ) × IsNamed us segment stop.segment }
{
    writable();
    object_of_unit();
    object_written();
}

/// What is told of a run of the image of units, watched at what a stop means in them, is what is reported of their program: at the number
/// of instructions whose show is given, or at any.
pub fn reported()
    ensures shown { (us : List SourceUnit) (limits : Limits) (stop : Stop) (watch : Watch) (input : List ℕ)
        (s : State) (k : ℕ) (shown : Observed) (events : List Event) (text : List ℕ) →
        us ≢ [] → length us ≤ 200 → All IsCompilable us → IsLimits limits → Links us limits
        → All (λ b. b < 256) input → IsStart (image_of us limits).code (image_of us limits).words s →
        MeansInUnits us limits stop (Ok watch) → IsDistinct nat_eq watch.places → All (λ word. word.address < limits.area) watch.words →
        Shows s input k shown → FitsInput input events → Reports watch s events k text → ReportsUnits us limits stop input k shown text }
    ensures some { (us : List SourceUnit) (limits : Limits) (stop : Stop) (watch : Watch) (input : List ℕ)
        (s : State) (k : ℕ) (events : List Event) (text : List ℕ) →
        us ≢ [] → length us ≤ 200 → All IsCompilable us → IsLimits limits → Links us limits
        → All (λ b. b < 256) input → IsStart (image_of us limits).code (image_of us limits).words s →
        MeansInUnits us limits stop (Ok watch) → IsDistinct nat_eq watch.places → All (λ word. word.address < limits.area) watch.words →
        FitsInput input events → Reports watch s events k text → (shown : Observed) × Shows s input k shown × ReportsUnits us limits stop input k shown text }
{
    places_told();
    loaded();
    preservation();
    beginnings();
    shows_the_run();
    reports_of_begun();
}
