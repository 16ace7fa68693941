//! The lines of a script.

use crate::chunk::Chunk;
use crate::fault::ScriptFault;
use crate::piece::Piece;
use r3_desk::Source;
use r3_value::Memory;
use std::alloc::Global;

/// A script, which is read from its source as far as its lines are asked for.
#[derive(Drop)]
pub struct Script {
    chunk: Chunk,
    piece: Piece,
    ended: bool,
}

impl Script {
    ghost use Rattle.std.specs.Prelude.{◌≡◌, ℕ, List, [], false, IfOk, IsErrOf};
    ghost use Rattle.r3_desk.specs.Causes.{Rose};
    ghost use Rattle.r3_script.specs.Lines.{Text};
    ghost use Rattle.r3_script.specs.Script.{Reads, Answers, EndsWith, line_of, has_ended};

    /// A script of which nothing was read yet. It takes a buffer of 2^16 bytes.
    pub fn new(alloc: Global) -> Result<Script, Memory>
        ensures reads { IfOk result (λ script. Reads script [] []) }
        ensures open { IfOk result (λ script. has_ended script ≡ false) }
    {
        Ok(Script {
            chunk: Chunk::new(alloc)?,
            piece: Piece::new(alloc),
            ended: false,
        })
    }

    /// The line that was handed out last.
    pub fn line(&self) -> &[u8]
        ensures { result.now ≡ line_of self.now }
    {
        self.piece.bytes()
    }

    /// Goes on to the next line that isn't blank, and answers whether there is one.
    pub fn next_line<S: Source>(&mut self, source: &mut S) -> Result<bool, ScriptFault>
        ensures lines { (given : List ℕ) (handed : List Text) → Reads self.old given handed →
            Answers (S.left source.old) (S.left source.new) self.new given handed result }
        ensures end { EndsWith (has_ended self.old) (S.ended source.old) (S.left source.old) →
            EndsWith (has_ended self.new) (S.ended source.new) (S.left source.new) }

        // The source has failed exactly where its count of faults rose.
        ensures fault { IsErrOf result ScriptFault.Source →
            Rose (S.faults source.old) (S.faults source.new) }
        ensures no_fault { (IsErrOf result ScriptFault.Source → ⊥) →
            S.faults source.new ≡ S.faults source.old }
    {
        if self.ended {
            return Ok(false);
        }
        self.piece.clear();
        'bytes: while let Some(byte) = self.chunk.next(source)? {
            match self.piece.push(byte) {
                Ok(false) => {}
                Ok(true) => return Ok(true),
                Err(fault) => return Err(fault),
            }
        }
        // What stands behind the last newline is a line too.
        self.ended = true;
        Ok(self.piece.has_text())
    }
}
