// Printer.dfy's `Program` and the declarations. Each method prints the words from the next one on, and passes them.
ghost use Rattle.rendering.specs.Parts.{Prints};
ghost use Rattle.rendering.specs.Sequences.{one};
ghost use Rattle.rendering.specs.DeclParts.{a_program, a_type_decl, a_tagger_decl, a_function_decl, an_axiom_decl, a_procedure, indented, a_when, when_list, a_definition, a_body};

use crate::printer::Printer;
use crate::setting::Setting;

impl Printer<'_> {
    // `Program`: the declarations of each kind, an empty line before each.
    pub(crate) fn program(&mut self)
        ensures { Prints a_program self.old self.new }
    {
        self.put(b"// B3 program\n");
        self.separated(b"\n", b"\n", |p| p.type_decl());
        self.separated(b"\n", b"\n", |p| p.tagger_decl());
        self.separated(b"\n", b"\n", |p| p.function_decl());
        self.separated(b"\n", b"\n", |p| p.axiom_decl());
        self.separated(b"\n", b"\n", |p| p.procedure());
    }

    fn type_decl(&mut self)
        ensures { Prints (one a_type_decl) self.old self.new }
    {
        self.put(b"type ");
        self.name_then(b"\n");
    }

    fn tagger_decl(&mut self)
        ensures { Prints (one a_tagger_decl) self.old self.new }
    {
        self.put(b"tagger ");
        self.name_then(b" for ");
        self.name_then(b"\n");
    }

    fn function_decl(&mut self)
        ensures { Prints (one a_function_decl) self.old self.new }
    {
        self.put(b"function ");
        self.name_then(b"(");
        self.separated(b"", b", ", |p| p.formal());
        self.put(b"): ");
        self.name();
        self.optional(b" tag ", |p| p.name());
        self.put(b"\n");
        self.optional(b"", |p| p.definition());
    }

    // A function's `when` clauses and its body.
    fn definition(&mut self)
        ensures { Prints (one a_definition) self.old self.new }
    {
        self.whens();
        self.put(b"{\n");
        self.indented();
        self.put(b"\n}\n");
    }

    fn whens(&mut self)
        ensures { Prints when_list self.old self.new }
    {
        self.separated(b"", b"", |p| p.when_clause());
    }

    fn when_clause(&mut self)
        ensures { Prints (one a_when) self.old self.new }
    {
        self.indent(self.source.step);
        self.put(b"when ");
        self.inline();
        self.put(b"\n");
    }

    // An expression in the source's form at the first indent.
    fn indented(&mut self)
        ensures { Prints indented self.old self.new }
    {
        let step = self.source.step;
        let format = self.source.form.at(step);
        self.indent(step);
        self.expr(Setting::outermost(format));
    }

    fn axiom_decl(&mut self)
        ensures { Prints (one an_axiom_decl) self.old self.new }
    {
        self.put(b"axiom");
        self.separated(b" explains ", b", ", |p| p.name());
        self.put(b"\n");
        self.indented();
        self.put(b"\n");
    }

    fn procedure(&mut self)
        ensures { Prints (one a_procedure) self.old self.new }
    {
        let step = self.source.step;
        self.put(b"procedure ");
        self.name_then(b"(");
        self.separated(b"", b", ", |p| p.parameter());
        self.put(b")\n");
        self.aexprs(b"requires", step);
        self.aexprs(b"ensures", step);
        self.optional(b"", |p| p.body());
    }

    // A procedure's body.
    fn body(&mut self)
        ensures { Prints (one a_body) self.old self.new }
    {
        self.block(0);
        self.put(b"\n");
    }
}
