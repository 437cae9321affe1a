// The declarations of a program, in five sequences.
use crate::arena::{EMPTY, Node};
use crate::parser::Parser;
use lexing::refusal::Refusal;

// The kinds of declarations, in the order of a program's sequences.
#[derive(Clone, Copy, PartialEq, Eq, Debug)]
pub(crate) enum DeclKind {
    Types,
    Taggers,
    Functions,
    Axioms,
    Procedures,
}

// The words that begin declarations.
static WORDS: [(&[u8], DeclKind); 5] = [
    (b"type", DeclKind::Types),
    (b"tagger", DeclKind::Taggers),
    (b"function", DeclKind::Functions),
    (b"axiom", DeclKind::Axioms),
    (b"procedure", DeclKind::Procedures),
];

impl<'a> Parser<'a> {
    ghost use Rattle.tree.specs.Words.{program_words};
    ghost use Rattle.grammar.specs.Declarations.{TopLevel};
    ghost use Rattle.parsing.specs.Code.{opening};
    ghost use Rattle.parsing.specs.Contract.{Spare, Reads, same};
    ghost use Rattle.parsing.specs.Declarations.{Begins, Joined, kind_rule, decl_words, decl_rule};

    // The kind of the declaration that begins here, after its word.
    fn begin(&mut self) -> Result<Option<DeclKind>, Refusal>
        ensures { Begins kind_rule self.old self.new result }
    {
        let Some(len) = self.word_ahead() else {
            return Ok(None);
        };
        for &(word, kind) in &WORDS {
            if self.keyword_of(len, word)? {
                return Ok(Some(kind));
            }
        }
        Ok(None)
    }

    // A declaration of a kind, after its word.
    fn decl(&mut self, kind: DeclKind, depth: usize) -> Result<u32, Refusal>
        requires { Spare self.old 5 }
        ensures { Reads (decl_words kind) (decl_rule kind depth) 1 5 self.old self.new result }
    {
        // Kept: the kind is data, which numbers its sequence too (`program`); the rules in the table of words would be function pointers.
        match kind {
            DeclKind::Types => self.type_decl(),
            DeclKind::Taggers => self.tagger_decl(),
            DeclKind::Functions => self.function_decl(depth),
            DeclKind::Axioms => self.axiom_decl(depth),
            DeclKind::Procedures => self.proc_decl(depth),
        }
    }

    // The five sequences, by the last node of each, with their ends and one after another.
    fn joined(&mut self, lists: [u32; 5]) -> u32
        requires { Spare self.old 9 }
        ensures { Joined lists self.old self.new result }
    {
        let [types, taggers, functions, axioms, procedures] = lists;
        let types = self.close(types);
        let taggers = self.close(taggers);
        let functions = self.close(functions);
        let axioms = self.close(axioms);
        let procedures = self.close(procedures);
        let first = self.pair(types, taggers);
        self.four(first, functions, axioms, procedures)
    }

    // `TopLevel` after the blanks at the text's start.
    pub(crate) fn program(&mut self, depth: usize) -> Result<u32, Refusal>
        requires { Spare self.old 9 }
        ensures { Reads (program_words same) (opening TopLevel depth) 0 9 self.old self.new result }
    {
        // The last node of each sequence.
        let mut lists = [EMPTY; 5];
        while let Some(kind) = self.begin()? {
            let d = self.decl(kind, depth)?;
            lists[kind as usize] = self.push(Node::Item(lists[kind as usize], d));
        }
        Ok(self.joined(lists))
    }
}
