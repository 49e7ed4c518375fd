// That every line of the sheets says what the described platform has at its place, and that the platform has nothing else.
#![tactic(auto)]

ghost use Rattle.lines.specs.Lines.{LinesHold};

// The platform that rows describe holds what each line says, and nothing that no line says.
pub fn lines_hold()
    ensures { LinesHold }
{}
