// 01's table of converted lines, for code: its rows, the numbers that crates go by, and its names as bytes. `convert/specs/Table` is the same table for the
// definitions; the contract of each function that uses a row, a number or a name from here ties the two. A module for each system of numbers, so that a
// reader sees which of them a number belongs to.

// ---- the maps: a module for each row, in 01's order

// NICKNAME. MAP is the map's number, NAMED that of its lines' name (`names`), LINE this name; FORM is how a value is written (`forms`), FORM_BYTE the same
// as a byte; NAME is the member's name, HEAD what the JSON has before its first entry; PREFIX begins the keys that are made; CONTENT is what the JSON has
// before an entry's string; MEMBERS are the names of an entry's members by their slots (`entry`), a slot that the map does not have being another name for
// the first; LINES are the names of its lines in capitals.
#![tactic(auto)]

pub mod nicknames {
    use super::{forms, names};

    pub const MAP: usize = 0;

    pub const NAMED: usize = names::OF_MAPS + MAP;

    pub const LINE: [u8; 8] = *b"nickname";

    pub const FORM: usize = forms::SINGLE;

    pub const FORM_BYTE: u8 = FORM as u8;

    pub const NAME: [u8; 9] = *b"nicknames";

    pub const HEAD: [u8; 14] = *b",\"nicknames\":{";

    pub const PREFIX: [u8; 4] = *b"NICK";

    pub const MEMBERS: [u8; 33] = *b"name,name,contexts,pref,name,name";

    pub const LINES: [u8; 8] = *b"NICKNAME";
}

// EMAIL.
pub mod emails {
    use super::{forms, names};

    pub const MAP: usize = 1;

    pub const NAMED: usize = names::OF_MAPS + MAP;

    pub const LINE: [u8; 5] = *b"email";

    pub const FORM: usize = forms::TEXT;

    pub const FORM_BYTE: u8 = FORM as u8;

    pub const NAME: [u8; 6] = *b"emails";

    pub const HEAD: [u8; 11] = *b",\"emails\":{";

    pub const PREFIX: [u8; 5] = *b"EMAIL";

    pub const CONTENT: [u8; 10] = *b"\"address\":";

    pub const MEMBERS: [u8; 45] = *b"address,address,contexts,pref,address,address";

    pub const LINES: [u8; 5] = *b"EMAIL";
}

// TEL.
pub mod phones {
    use super::{forms, names};

    pub const MAP: usize = 2;

    pub const NAMED: usize = names::OF_MAPS + MAP;

    pub const LINE: [u8; 3] = *b"tel";

    pub const FORM: usize = forms::PHONE;

    pub const FORM_BYTE: u8 = FORM as u8;

    pub const NAME: [u8; 6] = *b"phones";

    pub const HEAD: [u8; 11] = *b",\"phones\":{";

    pub const PREFIX: [u8; 5] = *b"PHONE";

    pub const CONTENT: [u8; 9] = *b"\"number\":";

    pub const MEMBERS: [u8; 43] = *b"number,number,contexts,pref,features,number";

    pub const LINES: [u8; 3] = *b"TEL";
}

// URL.
pub mod links {
    use super::{forms, names};

    pub const MAP: usize = 3;

    pub const NAMED: usize = names::OF_MAPS + MAP;

    pub const LINE: [u8; 3] = *b"url";

    pub const FORM: usize = forms::RAW;

    pub const FORM_BYTE: u8 = FORM as u8;

    pub const NAME: [u8; 5] = *b"links";

    pub const HEAD: [u8; 10] = *b",\"links\":{";

    pub const PREFIX: [u8; 4] = *b"LINK";

    pub const CONTENT: [u8; 6] = *b"\"uri\":";

    pub const MEMBERS: [u8; 29] = *b"uri,uri,contexts,pref,uri,uri";

    pub const LINES: [u8; 3] = *b"URL";
}

// NOTE.
pub mod notes {
    use super::{forms, names};

    pub const MAP: usize = 4;

    pub const NAMED: usize = names::OF_MAPS + MAP;

    pub const LINE: [u8; 4] = *b"note";

    pub const FORM: usize = forms::TEXT;

    pub const FORM_BYTE: u8 = FORM as u8;

    pub const NAME: [u8; 5] = *b"notes";

    pub const HEAD: [u8; 10] = *b",\"notes\":{";

    pub const PREFIX: [u8; 4] = *b"NOTE";

    pub const CONTENT: [u8; 7] = *b"\"note\":";

    pub const MEMBERS: [u8; 29] = *b"note,note,note,note,note,note";

    pub const LINES: [u8; 4] = *b"NOTE";
}

// TITLE and ROLE: the kind of an entry says which (`kinds`).
pub mod titles {
    use super::{forms, names};

    pub const MAP: usize = 5;

    pub const NAMED: usize = names::OF_MAPS + MAP;

    pub const TITLE_LINE: [u8; 5] = *b"title";

    pub const ROLE_LINE: [u8; 4] = *b"role";

    pub const FORM: usize = forms::TEXT;

    pub const FORM_BYTE: u8 = FORM as u8;

    pub const NAME: [u8; 6] = *b"titles";

    pub const HEAD: [u8; 11] = *b",\"titles\":{";

    pub const PREFIX: [u8; 5] = *b"TITLE";

    pub const MEMBERS: [u8; 29] = *b"name,kind,name,name,name,name";

    pub const LINES: [u8; 10] = *b"TITLE,ROLE";
}

// ORG.
pub mod organizations {
    use super::{forms, names};

    pub const MAP: usize = 6;

    pub const NAMED: usize = names::OF_MAPS + MAP;

    pub const LINE: [u8; 3] = *b"org";

    pub const FORM: usize = forms::ORGANIZATION;

    pub const FORM_BYTE: u8 = FORM as u8;

    pub const NAME: [u8; 13] = *b"organizations";

    pub const HEAD: [u8; 18] = *b",\"organizations\":{";

    pub const PREFIX: [u8; 3] = *b"ORG";

    pub const MEMBERS: [u8; 30] = *b"name,name,name,name,name,units";

    pub const LINES: [u8; 3] = *b"ORG";
}

// All maps.
pub mod maps {
    use super::members;

    pub const COUNT: usize = 7;

    // The number after theirs. Among the keys that lines use it is that of the pointers of JSPROP, and among the names of a JSON card that of its own members.
    pub const POINTERS: usize = COUNT;

    // The maps, and these.
    pub const GROUPS: usize = COUNT + 1;

    // What is before an entry's string where the row says nothing else.
    pub const CONTENT: [u8; 7] = *b"\"name\":";

    // The head of no map.
    pub const NO_HEAD: [u8; 5] = *b",\"\":{";

    // The kinds of a map whose entries have none.
    pub const NO_KINDS: [u8; 0] = *b"";

    // How deep a value of an entry may be.
    pub const DEPTH: usize = members::DEPTH - 1;
}

// How the value of a line of a map is written, by number: TEXT, TEXT without a bare comma, raw, TEXT or a tel: URI, the parts of an organization.
pub mod forms {
    pub const TEXT: usize = 0;

    pub const SINGLE: usize = 1;

    pub const RAW: usize = 2;

    pub const PHONE: usize = 3;

    pub const ORGANIZATION: usize = 4;
}

// The kind of an entry of titles, by number.
pub mod kinds {
    pub const TITLE: usize = 0;

    pub const ROLE: usize = 1;

    // How many there are.
    pub const COUNT: usize = 2;

    // No kind.
    pub const NONE: usize = COUNT;

    pub const NAMES: [u8; 10] = *b"title,role";

    pub const TITLE_MEMBER: [u8; 15] = *b"\"kind\":\"title\",";

    pub const ROLE_MEMBER: [u8; 14] = *b"\"kind\":\"role\",";
}

// ---- lines

// The name of a line, by number; from OF_MAPS on those of the maps.
pub mod names {
    pub const OTHER: usize = 0;

    pub const VERSION: usize = 1;

    pub const UID: usize = 2;

    pub const KIND: usize = 3;

    pub const FN: usize = 4;

    pub const N: usize = 5;

    pub const JSPROP: usize = 6;

    pub const OF_MAPS: usize = 16;

    pub const VERSION_NAME: [u8; 7] = *b"version";

    pub const UID_NAME: [u8; 3] = *b"uid";

    pub const KIND_NAME: [u8; 4] = *b"kind";

    pub const FN_NAME: [u8; 2] = *b"fn";

    pub const N_NAME: [u8; 1] = *b"n";

    pub const JSPROP_NAME: [u8; 6] = *b"jsprop";

    // Names that no kept line has.
    pub const UNKEPT: [u8; 26] = *b"begin,end,version,uid,kind";

    // How many they are.
    pub const UNKEPT_COUNT: usize = 5;
}

// How lines begin, and whole ones.
pub mod lines {
    pub const START: [u8; 26] = *b"BEGIN:VCARD\r\nVERSION:4.0\r\n";

    pub const END: [u8; 11] = *b"END:VCARD\r\n";

    pub const VERSION: [u8; 3] = *b"4.0";

    pub const UID: [u8; 4] = *b"UID:";

    pub const KIND: [u8; 5] = *b"KIND:";

    pub const FN: [u8; 3] = *b"FN:";

    pub const DERIVED_FN: [u8; 16] = *b"FN;DERIVED=TRUE:";

    pub const EMPTY_FN: [u8; 18] = *b"FN;DERIVED=TRUE:\r\n";

    pub const N: [u8; 2] = *b"N:";

    pub const JSPROP: [u8; 14] = *b"JSPROP;JSPTR=\"";
}

// What a line becomes, by number. Below KEPT: an entry of the map of that number.
pub mod classes {
    pub const KEPT: usize = 16;

    pub const DROPPED: usize = 17;

    pub const VERSION: usize = 18;

    pub const UID: usize = 19;

    pub const KIND: usize = 20;

    pub const FULL: usize = 21;

    pub const PARTS: usize = 22;

    pub const MEMBER: usize = 23;
}

// The parameters that the converter looks at, by number. NAMEs are in lower case; LEADs stand before a value.
pub mod params {
    pub const PROP_ID: usize = 0;

    pub const PREF: usize = 1;

    pub const TYPE: usize = 2;

    pub const VALUE: usize = 3;

    pub const JSPTR: usize = 4;

    pub const DERIVED: usize = 5;

    pub const GROUP: usize = 6;

    pub const OTHER: usize = 7;

    // How many numbers there are: the length of a row.
    pub const COUNT: usize = 8;

    pub const PROP_ID_NAME: [u8; 7] = *b"prop-id";

    pub const PREF_NAME: [u8; 4] = *b"pref";

    pub const TYPE_NAME: [u8; 4] = *b"type";

    pub const VALUE_NAME: [u8; 5] = *b"value";

    pub const JSPTR_NAME: [u8; 5] = *b"jsptr";

    pub const DERIVED_NAME: [u8; 7] = *b"derived";

    pub const GROUP_NAME: [u8; 5] = *b"group";

    pub const PROP_ID_LEAD: [u8; 9] = *b";PROP-ID=";

    pub const PREF_LEAD: [u8; 6] = *b";PREF=";

    pub const TYPE_LEAD: [u8; 6] = *b";TYPE=";

    pub const TRUE: [u8; 4] = *b"true";
}

// What VALUE says, by number: it is absent or `unknown`, `uri`, or another.
pub mod values {
    pub const UNKNOWN: usize = 0;

    pub const URI: usize = 1;

    pub const OTHER: usize = 2;

    pub const UNKNOWN_NAME: [u8; 7] = *b"unknown";

    pub const URI_NAME: [u8; 3] = *b"uri";

    pub const URI_LEAD: [u8; 11] = *b";VALUE=uri:";
}

// The values of TYPE, by number, and what the JSON has for each. The first are contexts, the others features.
pub mod types {
    pub const HOME: usize = 0;

    pub const WORK: usize = 1;

    pub const FAX: usize = 2;

    pub const CELL: usize = 3;

    pub const PAGER: usize = 4;

    pub const TEXT: usize = 5;

    pub const TEXTPHONE: usize = 6;

    pub const VIDEO: usize = 7;

    pub const VOICE: usize = 8;

    // How many there are: the length of a row of marks.
    pub const COUNT: usize = 9;

    // The contexts among them, and the others.
    pub const CONTEXTS: usize = 2;

    pub const FEATURES: usize = COUNT - CONTEXTS;

    pub const NAMES: [u8; 51] = *b"home,work,fax,cell,pager,text,textphone,video,voice";

    pub const HOME_NAME: [u8; 4] = *b"home";

    pub const WORK_NAME: [u8; 4] = *b"work";

    pub const FAX_NAME: [u8; 3] = *b"fax";

    pub const CELL_NAME: [u8; 4] = *b"cell";

    pub const PAGER_NAME: [u8; 5] = *b"pager";

    pub const TEXT_NAME: [u8; 4] = *b"text";

    pub const TEXTPHONE_NAME: [u8; 9] = *b"textphone";

    pub const VIDEO_NAME: [u8; 5] = *b"video";

    pub const VOICE_NAME: [u8; 5] = *b"voice";

    pub const CONTEXT_NAMES: [u8; 12] = *b"private,work";

    pub const FEATURE_NAMES: [u8; 43] = *b"fax,mobile,pager,text,textphone,video,voice";

    pub const CONTEXTS_HEAD: [u8; 13] = *b",\"contexts\":{";

    pub const FEATURES_HEAD: [u8; 13] = *b",\"features\":{";

    pub const HOME_FLAG: [u8; 14] = *b"\"private\":true";

    pub const WORK_FLAG: [u8; 11] = *b"\"work\":true";

    pub const FAX_FLAG: [u8; 10] = *b"\"fax\":true";

    pub const CELL_FLAG: [u8; 13] = *b"\"mobile\":true";

    pub const PAGER_FLAG: [u8; 12] = *b"\"pager\":true";

    pub const TEXT_FLAG: [u8; 11] = *b"\"text\":true";

    pub const TEXTPHONE_FLAG: [u8; 16] = *b"\"textphone\":true";

    pub const VIDEO_FLAG: [u8; 12] = *b"\"video\":true";

    pub const VOICE_FLAG: [u8; 12] = *b"\"voice\":true";
}

// The parts of N, by number, and the kinds of components that they are. HEADs begin a component.
pub mod parts {
    pub const SURNAME: usize = 0;

    pub const GIVEN: usize = 1;

    pub const GIVEN2: usize = 2;

    pub const TITLE: usize = 3;

    pub const CREDENTIAL: usize = 4;

    pub const SURNAME2: usize = 5;

    pub const GENERATION: usize = 6;

    pub const COUNT: usize = 7;

    // No part.
    pub const NONE: usize = COUNT;

    // No part of N, but written as items like them: the units of an organization, after its name.
    pub const UNITS_AFTER: usize = COUNT;

    // The same where it has no name.
    pub const UNITS_ALONE: usize = COUNT + 1;

    pub const KINDS: [u8; 57] = *b"surname,given,given2,title,credential,surname2,generation";

    // The order in which kinds stand in a made FN: a digit is a kind.
    pub const FN_ORDER: [u8; 7] = *b"0123456";

    // The same in N: a semicolon is itself.
    pub const N_ORDER: [u8; 15] = *b"05;1;2;3;46;5;6";

    pub const SURNAME_HEAD: [u8; 26] = *b"{\"kind\":\"surname\",\"value\":";

    pub const GIVEN_HEAD: [u8; 24] = *b"{\"kind\":\"given\",\"value\":";

    pub const GIVEN2_HEAD: [u8; 25] = *b"{\"kind\":\"given2\",\"value\":";

    pub const TITLE_HEAD: [u8; 24] = *b"{\"kind\":\"title\",\"value\":";

    pub const CREDENTIAL_HEAD: [u8; 29] = *b"{\"kind\":\"credential\",\"value\":";

    pub const SURNAME2_HEAD: [u8; 27] = *b"{\"kind\":\"surname2\",\"value\":";

    pub const GENERATION_HEAD: [u8; 29] = *b"{\"kind\":\"generation\",\"value\":";

    pub const UNIT_HEAD: [u8; 8] = *b"{\"name\":";

    pub const UNITS_AFTER_HEAD: [u8; 10] = *b",\"units\":[";

    pub const UNITS_ALONE_HEAD: [u8; 9] = *b"\"units\":[";
}

// ---- members of JSON objects: slots by the list of their names, one more for any other member; how deep a member's value may be

// A card: the reserved names, those of the maps among them.
pub mod members {
    use super::maps;

    pub const TYPE: usize = 0;

    pub const VERSION: usize = 1;

    pub const UID: usize = 2;

    pub const KIND: usize = 3;

    pub const NAME: usize = 4;

    // The first map; the others follow.
    pub const MAPS: usize = 5;

    pub const KEPT: usize = MAPS + maps::COUNT;

    pub const OTHER: usize = KEPT + 1;

    pub const SLOTS: usize = OTHER + 1;

    pub const NAMES: [u8; 95] =
        *b"@type,version,uid,kind,name,nicknames,emails,phones,links,notes,titles,organizations,vCardProps";

    pub const TYPE_NAME: [u8; 5] = *b"@type";

    pub const VERSION_NAME: [u8; 7] = *b"version";

    pub const UID_NAME: [u8; 3] = *b"uid";

    pub const KIND_NAME: [u8; 4] = *b"kind";

    pub const NAME_NAME: [u8; 4] = *b"name";

    pub const KEPT_NAME: [u8; 10] = *b"vCardProps";

    // How a JSON card begins, and what it has before the members' values.
    pub const START: [u8; 38] = *b"{\"@type\":\"Card\",\"version\":\"1.0\",\"uid\":";

    pub const KIND_HEAD: [u8; 8] = *b",\"kind\":";

    pub const NAME_HEAD: [u8; 9] = *b",\"name\":{";

    pub const KEPT_HEAD: [u8; 15] = *b",\"vCardProps\":[";

    // The value of @type.
    pub const CARD: [u8; 4] = *b"Card";

    // The value of version.
    pub const FIRST_VERSION: [u8; 3] = *b"1.0";

    pub const DEPTH: usize = json_limits::INNER;
}

// The member `name`.
pub mod name {
    use super::members;

    pub const FULL: usize = 0;

    pub const COMPONENTS: usize = 1;

    pub const ORDERED: usize = 2;

    pub const OTHER: usize = 3;

    pub const SLOTS: usize = OTHER + 1;

    pub const NAMES: [u8; 25] = *b"full,components,isOrdered";

    pub const FULL_HEAD: [u8; 7] = *b"\"full\":";

    pub const COMPONENTS_HEAD: [u8; 13] = *b"\"components\":";

    pub const COMPONENTS_AFTER: [u8; 14] = *b",\"components\":";

    pub const DEPTH: usize = members::DEPTH - 1;
}

// A component of a name: it stands in an array.
pub mod component {
    use super::name;

    pub const KIND: usize = 0;

    pub const VALUE: usize = 1;

    pub const OTHER: usize = 2;

    pub const SLOTS: usize = OTHER + 1;

    pub const NAMES: [u8; 10] = *b"kind,value";

    pub const DEPTH: usize = name::DEPTH - 2;
}

// An entry of a map. The names are those of its row.
pub mod entry {
    use super::maps;

    pub const CONTENT: usize = 0;

    pub const KIND: usize = 1;

    pub const CONTEXTS: usize = 2;

    pub const PREF: usize = 3;

    pub const FEATURES: usize = 4;

    pub const UNITS: usize = 5;

    pub const OTHER: usize = 6;

    pub const SLOTS: usize = OTHER + 1;

    pub const PREF_HEAD: [u8; 8] = *b",\"pref\":";

    pub const DEPTH: usize = maps::DEPTH - 1;

    // An element of its units.
    pub const UNITS_DEPTH: usize = DEPTH - 1;
}

// A unit of an organization.
pub mod unit {
    use super::entry;

    pub const NAME: usize = 0;

    pub const OTHER: usize = 1;

    pub const SLOTS: usize = OTHER + 1;

    pub const NAMES: [u8; 4] = *b"name";

    pub const DEPTH: usize = entry::UNITS_DEPTH - 1;
}

// An entry of vCardProps: an array in an array. Its elements, the values of its parameters, and the elements of these.
pub mod kept {
    use super::members;

    pub const DEPTH: usize = members::DEPTH - 2;

    pub const PARAMS_DEPTH: usize = DEPTH - 1;

    pub const VALUES_DEPTH: usize = PARAMS_DEPTH - 1;

    pub const GROUP_HEAD: [u8; 8] = *b"\"group\":";

    pub const UNKNOWN: [u8; 9] = *b"\"unknown\"";
}

// ---- limits

// 01's limits of keys, of the stem of a made UID, and of the number of a card.
pub mod limits {
    pub const KEY: usize = 255;

    pub const STEM: usize = 200;

    pub const NUMBER: usize = 999999;
}
