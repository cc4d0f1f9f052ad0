//! Laws of the definitions. A call of one, as `firsts_stay();`, gives its statement to the caller's
//! proof.
ghost use Rattle.std.specs.Prelude.{◌≡◌, IsTrue, List};
ghost use Rattle.hayagriva.specs.declared.query.Hit.{Hit};
ghost use Rattle.haya_questions.specs.Place.{PlaceView};
ghost use Rattle.haya_asked.specs.Alike.{is_like};
ghost use Rattle.haya_asked.specs.Asked.{AreAsked, asks_nothing};
ghost use Rattle.haya_asked.specs.Firsts.{firsts};
ghost use Rattle.haya_asked.specs.declared.questions.Questions.{Questions};

/// The firsts of the firsts are the firsts.
pub fn firsts_stay()
    ensures { (places : List PlaceView) (hits : List Hit) →
        firsts (is_like places) (firsts (is_like places) hits) ≡ firsts (is_like places) hits }
{}

/// Where nothing is asked, all hits are wanted, as they are.
pub fn all_are_asked()
    ensures { (questions : Questions) (hits : List Hit) → IsTrue (asks_nothing questions) →
        AreAsked questions hits hits }
{}
