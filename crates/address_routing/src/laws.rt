//! What follows from the definitions. Each function does nothing: its contract is the law.
ghost use Rattle.address_routing.specs.Plain.{TextTellsModule};

/// Two modules with one text have the same endpoints, ingresses and egresses, in the same order, where their names are such as
/// a text spells and their numbers have at most 64 bits. So the text may stand for the module.
pub fn the_text_tells_the_module()
    ensures { TextTellsModule }
{}
