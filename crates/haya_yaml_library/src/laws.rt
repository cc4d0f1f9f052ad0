//! Laws of the definitions. A call of one gives its statement to the caller's proof.
ghost use Rattle.std.specs.Prelude.{List, ℕ};
ghost use Rattle.json.specs.Print.{print};
ghost use Rattle.json.specs.Tree.{json_tokens};
ghost use Rattle.haya_entry.specs.Tree.{Tree};
ghost use Rattle.haya_json.specs.Printed.{library_json};
ghost use Rattle.haya_json.specs.ReadBack.{ReadsBack};
ghost use Rattle.haya_yaml_library.specs.Libraries.{DescribesAsYaml};
ghost use Rattle.haya_yaml_library.specs.Writing.{SaysJson};

/// Where a library is read back from what is printed of it in JSON, each text that says in YAML
/// what that says describes it.
pub fn written_libraries_read_back()
    ensures { (library : List Tree) (text : List ℕ) → ReadsBack library
        → SaysJson (print (json_tokens (library_json library))) text
        → DescribesAsYaml text library }
{}
