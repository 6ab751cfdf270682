// What the texts of instructions tell. The law is a function with nothing to do: its clause is the law.
ghost use Rattle.std.specs.Prelude.{◌≡◌, ℕ, List};
ghost use Rattle.std.specs.List.{AllByRecursion};
ghost use Rattle.o2_isa.specs.Spelling.{IsByte, Spells};
ghost use Rattle.o2_isa.specs.declared.instr.Instr.{Instr};
ghost use Rattle.o2_text.specs.Text.{text_of};

/// Two different instructions, with one IP behind them, have two texts: so a text tells what is executed, and nothing else
/// looks the same.
pub fn texts_tell_instructions()
    ensures { (a b : List ℕ) (i j : Instr) (next : ℕ)
        → AllByRecursion IsByte a → AllByRecursion IsByte b
        → Spells a i → Spells b j → text_of i next ≡ text_of j next → i ≡ j }
{}
