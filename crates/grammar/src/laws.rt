// That the grammar finds just what the relations say, as the contract of a function that does nothing (specs/Laws.antt).
ghost use Rattle.grammar.specs.Laws.{HeaderLaw, CountLaw, TerminalLaw, VertexLaw, VerticesLaw, OutlineLaw, RectangleLaw, BlockLaw};

pub fn forms_are_exact()
    ensures header { HeaderLaw }
    ensures count { CountLaw }
    ensures terminal { TerminalLaw }
    ensures vertex { VertexLaw }
    ensures vertices { VerticesLaw }
    ensures outline { OutlineLaw }
    ensures rectangle { RectangleLaw }
    ensures block { BlockLaw }
{}
