// What holds of whole lists of frame calls: demand 2 (specs/Run.antt), two decoders on one list (specs/Demand.antt) and through a gap (specs/Gap.antt), and the values that 01 wants proved (specs/Values.antt).
#![tactic(auto)]

ghost use Rattle.agreement.specs.Claims.{Claims};

// There is nothing to run. The claims are its promise, so that the check fails where one of them is not proved.
pub fn claims()
    ensures { Claims }
{}
