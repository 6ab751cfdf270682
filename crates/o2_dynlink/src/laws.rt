// Laws of linking with a library that answers for the services' module.
ghost use Rattle.std.specs.Prelude.{◌≡◌, ◌&&◌, ℕ, List, Option, None, Some, Err, Ok, false, true, if◌then◌else◌, map};
ghost use Rattle.std.specs.List.{list_any};
ghost use Rattle.o2_base.specs.declared.faults.ModuleFault.TheVariants as fault;
ghost use Rattle.o2_conf.specs.declared.conf.Conf.{Conf};
ghost use Rattle.o2_ne.specs.NameTable.{same_name};
ghost use Rattle.o2_image.specs.Getters.{is_library};
ghost use Rattle.o2_image.specs.Images.{Target};
ghost use Rattle.o2_image.specs.Parts.{Parts};
ghost use Rattle.o2_dynlink.specs.Imports.{base_for, exported, exported_as, found_at, gate_of_built, gate_or, import_name, import_ordinal, service_called, service_with};
ghost use Rattle.o2_dynlink.specs.Linking.{linked_of, shim_of};
ghost use Rattle.o2_dynlink.specs.Listed.{doscalls, is_doscalls, library_named};
ghost use Rattle.o2_dynlink.specs.Outcome.{LinkedParts};
ghost use Rattle.o2_dynlink.specs.Reached.{libraries_of, refers};

/// If the machine file names no library for the services' module, an import of that is a built service or nothing, each other one is that
/// of the library of its name, and a reference is to the library of its name alone.
pub fn without_a_shim_linking_is_plain()
    ensures none { (ms : List Parts) → shim_of ms None ≡ Ok None }
    ensures ordinal { (ms : List Parts) (bases : List ℕ) (ordinals : List (ℕ × ℕ)) (name : List ℕ) (n : ℕ)
        → import_ordinal ms bases None ordinals name n
        ≡ (if is_doscalls name then gate_or (gate_of_built (service_with ordinals n)) (Err (fault.NoOrdinal doscalls n))
        else exported (base_for bases (library_named ms name)) name n (found_at ms (library_named ms name))) }
    ensures called { (ms : List Parts) (bases : List ℕ) (name text : List ℕ)
        → import_name ms bases None name text
        ≡ (if is_doscalls name then gate_or (gate_of_built (service_called text)) (Err (fault.NoName doscalls text))
        else exported_as (base_for bases (library_named ms name)) name text (found_at ms (library_named ms name))) }
    ensures reach { (m l : Parts) → refers None m l ≡ (is_library l && list_any (λ name. same_name l.names.own name) m.references) }
{}

/// An import of a built service leads to its gate, whichever library answers for the services' module.
pub fn a_built_service_comes_first()
    ensures ordinal { (ms : List Parts) (bases : List ℕ) (shim : Option ℕ) (ordinals : List (ℕ × ℕ)) (name : List ℕ) (n : ℕ) (gate : Target)
        → is_doscalls name ≡ true → gate_of_built (service_with ordinals n) ≡ Some gate
        → import_ordinal ms bases shim ordinals name n ≡ Ok gate }
    ensures called { (ms : List Parts) (bases : List ℕ) (shim : Option ℕ) (name text : List ℕ) (gate : Target)
        → is_doscalls name ≡ true → gate_of_built (service_called text) ≡ Some gate
        → import_name ms bases shim name text ≡ Ok gate }
{}

/// An import of the services' module that is no built service leads where the same import of the library that answers for it leads, by
/// that library's own name, and nowhere if that leads nowhere.
pub fn the_shim_is_linked_as_by_its_name()
    ensures ordinal { (ms : List Parts) (bases : List ℕ) (ordinals : List (ℕ × ℕ)) (name own : List ℕ) (place n : ℕ) (t : Target)
        → is_doscalls name ≡ true → gate_of_built (service_with ordinals n) ≡ None
        → is_doscalls own ≡ false → library_named ms own ≡ Some place
        → (import_ordinal ms bases (Some place) ordinals name n ≡ Ok t → import_ordinal ms bases (Some place) ordinals own n ≡ Ok t)
        × (import_ordinal ms bases (Some place) ordinals own n ≡ Ok t → import_ordinal ms bases (Some place) ordinals name n ≡ Ok t) }
    ensures called { (ms : List Parts) (bases : List ℕ) (name own text : List ℕ) (place : ℕ) (t : Target)
        → is_doscalls name ≡ true → gate_of_built (service_called text) ≡ None
        → is_doscalls own ≡ false → library_named ms own ≡ Some place
        → (import_name ms bases (Some place) name text ≡ Ok t → import_name ms bases (Some place) own text ≡ Ok t)
        × (import_name ms bases (Some place) own text ≡ Ok t → import_name ms bases (Some place) name text ≡ Ok t) }
{}

/// What links without the key `shim` links with it, if it names a listed library: to the same images and programs. Only the libraries
/// that a process reaches may be more.
pub fn what_links_without_a_shim_links_with_one()
    ensures { (ms : List Parts) (c : Conf) (l : LinkedParts) (name : List ℕ) (place : ℕ)
        → c.shim ≡ None → linked_of ms c ≡ Ok l → library_named ms name ≡ Some place
        → linked_of ms (record c { shim = Some name })
        ≡ Ok (record l { libraries = map (libraries_of (Some name) ms) l.programs }) }
{}
