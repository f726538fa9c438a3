//! Laws of the command line. Each is the contract of a function that does nothing.
ghost use Rattle.std.specs.Prelude.{◌≡◌, ℕ, List, [], ◌∷◌, codes};
ghost use Rattle.mpm_base.specs.CommandWord.{command_word};
ghost use Rattle.mpm_base.specs.declared.script_line.CommandWord.{CommandWord};
ghost use Rattle.command_words.specs.Invocations.{Form, AreOfForm, IsLoadText, IsLoadWords, IsPlainWord, IsScriptWords, IsSendWords, IsServeWords, IsTestWords};

/// Words have at most one form: of one kind, with one name, one number and one word.
pub fn words_have_one_form()
    ensures { (words : List (List ℕ)) (form other : Form)
        → AreOfForm words form → AreOfForm words other → form ≡ other }
{}

/// The words of the usage line have their forms, with each name that isn't taken for an option, each number of a load, from 1 to
/// 100,000, and each command.
pub fn shown_forms_are_forms()
    ensures script { (name : List ℕ) → IsPlainWord name
        → IsScriptWords (codes "--script" ∷ name ∷ []) name }
    ensures load { (text : List ℕ) (n : ℕ) → IsLoadText text n
        → IsLoadWords (codes "--load" ∷ text ∷ []) n }
    ensures least_load { IsLoadWords (codes "--load" ∷ codes "1" ∷ []) 1 }
    ensures most_load { IsLoadWords (codes "--load" ∷ codes "100000" ∷ []) 100000 }
    ensures serve { (name : List ℕ) → IsPlainWord name
        → IsServeWords (codes "-f" ∷ name ∷ []) name }
    ensures test { (name : List ℕ) → IsPlainWord name
        → IsTestWords (codes "-t" ∷ codes "-f" ∷ name ∷ []) name }
    ensures send { (word : CommandWord) (name : List ℕ) → IsPlainWord name
        → IsSendWords (codes "-k" ∷ command_word word ∷ codes "-f" ∷ name ∷ []) word name }
{}
