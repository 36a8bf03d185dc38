// How a list of rules is to be read.
ghost use Rattle.std.specs.Prelude.{◌≡◌, Decides};
ghost use Rattle.rules.specs.Letters.{Counts, letter_byte};
ghost use Rattle.rules.specs.Models.{default, default_overrides, lead, override};

use crate::rule::{Effect, Rule};

// What a list of a model decides where no rule applies, and where rules of both effects apply, is its model's to say.
#[derive(Clone, Copy, Debug, PartialEq, Eq)]
pub enum Model {
    A,
    B,
    C,
    D,
}

impl Model {
    // The effect that decides where no rule applies.
    pub fn default_effect(&self) -> Effect
        ensures { result ≡ default self.now }
    {
        match self {
            Model::A | Model::C => Effect::Deny,
            Model::B | Model::D => Effect::Permit,
        }
    }

    // The effect that decides where rules of both effects apply.
    pub fn overriding(&self) -> Effect
        ensures { result ≡ override self.now }
    {
        match self {
            Model::A | Model::D => Effect::Deny,
            Model::B | Model::C => Effect::Permit,
        }
    }

    // The effect that the default is not.
    pub fn lead_effect(&self) -> Effect
        ensures { result ≡ lead self.now }
    {
        !self.default_effect()
    }

    // Whether it is the default's effect that decides where rules of both effects apply.
    pub fn default_overrides(&self) -> bool
        ensures { result ≡ default_overrides self.now }
    {
        matches!(self, Model::A | Model::B)
    }
}

// The letter of a list: G for a guarded list, and the letter of its model for a list of a model.
#[derive(Clone, Copy, Debug, PartialEq, Eq)]
pub enum Letter {
    Guarded,
    Model(Model),
}

impl Letter {
    // The character that stands for the letter in a rule file. As `char::from` of a letter it would be no plainer: a letter has this one, and a reader is told here what it is.
    pub fn symbol(&self) -> char
        ensures { result ≡ letter_byte self.now }
    {
        match self {
            Letter::Guarded => 'G',
            Letter::Model(Model::A) => 'A',
            Letter::Model(Model::B) => 'B',
            Letter::Model(Model::C) => 'C',
            Letter::Model(Model::D) => 'D',
        }
    }

    // Whether a rule counts under this letter: in a guarded list permit rules do, and in a list of a model the rules that bar nothing.
    pub fn counts(&self, rule: &Rule) -> bool
        ensures { Decides result (Counts self.now rule.now) }
    {
        match self {
            Letter::Guarded => rule.effect == Effect::Permit,
            Letter::Model(_) => rule.bars_nothing(),
        }
    }
}
