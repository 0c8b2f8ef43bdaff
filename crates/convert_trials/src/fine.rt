// Each fine point of the form of a supplier's text: a name and a text for the compiled call.
pub const TEXTS: [(&str, &[u8]); 74] = [
    // White space: before and after, inside tags behind the name, around `=`, before `>` and `/>`, between elements.
    (
        "white outside",
        b" \t\r\n<catalogue \t\r\n>\n</catalogue\t\r >\n\t ",
    ),
    ("white empty", b"<catalogue\n/>"),
    (
        "white in tags",
        b"<catalogue> <t0 \t\r\n c0 \n=\t'5' >\r\n</t0 \n> <t0 /> </catalogue>",
    ),
    ("no white", b"<catalogue><t0 c0='5'><t1/></t0></catalogue>"),
    // And nowhere else: not behind `<`, `</` or `/`, not inside names or values.
    ("behind less", b"<catalogue>< t0/></catalogue>"),
    ("behind close", b"<catalogue><t0></ t0></catalogue>"),
    ("behind slash", b"<catalogue><t0/ ></catalogue>"),
    ("in the name", b"<catalogue><t 0/></catalogue>"),
    ("in the column", b"<catalogue><t0 c 0='5'/></catalogue>"),
    ("before the value", b"<catalogue><t0 c0=' 5'/></catalogue>"),
    ("behind the value", b"<catalogue><t0 c0='5 '/></catalogue>"),
    ("other white", b"<catalogue><t0\x0c/></catalogue>"),
    // Some is required before each attribute.
    ("none before", b"<catalogue><t0c0='5'/></catalogue>"),
    (
        "none between",
        b"<catalogue><t0><t1 c0='1'c1='7'/></t0></catalogue>",
    ),
    // Either quote, the same behind as before.
    ("double quotes", b"<catalogue><t0 c0=\"5\"/></catalogue>"),
    ("mixed quotes", b"<catalogue><t0 c0='5\"/></catalogue>"),
    ("no quotes", b"<catalogue><t0 c0=5 /></catalogue>"),
    // Both ways of an empty element; end tags that match.
    ("short empty", b"<catalogue><t0/></catalogue>"),
    ("long empty", b"<catalogue><t0></t0></catalogue>"),
    ("other end", b"<catalogue><t0></t1></catalogue>"),
    ("longer end", b"<catalogue><t0></t00></catalogue>"),
    ("no end", b"<catalogue><t0></catalogue>"),
    ("end alone", b"<catalogue><t0/></t0></catalogue>"),
    ("end cut", b"<catalogue></catalogue"),
    (
        "end with attribute",
        b"<catalogue><t0></t0 c0='5'></catalogue>",
    ),
    // Names: `t` and a number without leading zeros.
    ("leading zero", b"<catalogue><t00/></catalogue>"),
    ("leading zero one", b"<catalogue><t01/></catalogue>"),
    ("upper case", b"<catalogue><T0/></catalogue>"),
    ("no number", b"<catalogue><t/></catalogue>"),
    ("negative", b"<catalogue><t-1/></catalogue>"),
    ("signed", b"<catalogue><t+1/></catalogue>"),
    ("other name", b"<catalogue><row/></catalogue>"),
    ("other root", b"<catalog></catalog>"),
    ("longer root", b"<catalogues/>"),
    // Attributes: `c` and a number, a decimal value below 4,294,967,295.
    ("zero", b"<catalogue><t0 c0='0'/></catalogue>"),
    ("largest", b"<catalogue><t0 c0='4294967294'/></catalogue>"),
    ("too large", b"<catalogue><t0 c0='4294967295'/></catalogue>"),
    (
        "far too large",
        b"<catalogue><t0 c0='18446744073709551617'/></catalogue>",
    ),
    ("no digits", b"<catalogue><t0 c0=''/></catalogue>"),
    ("two zeros", b"<catalogue><t0 c0='00'/></catalogue>"),
    ("zero before", b"<catalogue><t0 c0='05'/></catalogue>"),
    ("signed value", b"<catalogue><t0 c0='+5'/></catalogue>"),
    ("no value", b"<catalogue><t0 c0/></catalogue>"),
    ("column zero", b"<catalogue><t0 c00='5'/></catalogue>"),
    ("other attribute", b"<catalogue><t0 d0='5'/></catalogue>"),
    // In any order, none twice, none on `catalogue`.
    (
        "any order",
        b"<catalogue><t0><t1 c1='7' c0='1'/></t0></catalogue>",
    ),
    ("twice", b"<catalogue><t0 c0='5' c0='5'/></catalogue>"),
    (
        "twice apart",
        b"<catalogue><t0><t1 c0='1' c1='7' c0=\"1\"/></t0></catalogue>",
    ),
    (
        "twice too large",
        b"<catalogue><t0 c99999999999999999999='1' c99999999999999999999='2'/></catalogue>",
    ),
    ("on catalogue", b"<catalogue c0='5'/>"),
    // Other text, comments, entities, prologs, declarations, namespaces, a byte order mark, a second root.
    ("other text", b"<catalogue><t0>5</t0></catalogue>"),
    ("text behind", b"<catalogue/>5"),
    ("comment", b"<catalogue><!-- --></catalogue>"),
    ("entity", b"<catalogue>&#32;</catalogue>"),
    (
        "entity in value",
        b"<catalogue><t0 c0='&#53;'/></catalogue>",
    ),
    ("character data", b"<catalogue><![CDATA[]]></catalogue>"),
    ("prolog", b"<?xml version='1.0'?><catalogue/>"),
    ("declaration", b"<!DOCTYPE catalogue><catalogue/>"),
    ("prefix", b"<x:catalogue/>"),
    ("namespace", b"<catalogue xmlns='x'/>"),
    ("second root", b"<catalogue/><catalogue/>"),
    ("nothing", b""),
    ("white alone", b" \n"),
    ("row alone", b"<t0/>"),
    // 21: a table or a column that the shape does not have, however long the numeral; a row that stands elsewhere.
    ("unknown table", b"<catalogue><t2/></catalogue>"),
    (
        "too large table",
        b"<catalogue><t18446744073709551616/></catalogue>",
    ),
    ("unknown column", b"<catalogue><t0 c1='5'/></catalogue>"),
    (
        "too large column",
        b"<catalogue><t0 c4294967296='5'/></catalogue>",
    ),
    (
        "different too large",
        b"<catalogue><t0 c4294967295='1' c4294967296='2'/></catalogue>",
    ),
    ("child at the root", b"<catalogue><t1/></catalogue>"),
    ("root in the root", b"<catalogue><t0><t0/></t0></catalogue>"),
    (
        "child in the child",
        b"<catalogue><t0><t1><t1/></t1></t0></catalogue>",
    ),
    // 20 over the whole text before 21.
    ("unfit then bad", b"<catalogue><t2/>5</catalogue>"),
    (
        "unfit then twice",
        b"<catalogue><t0 c1='5'/><t0 c0='5' c0='5'/></catalogue>",
    ),
];
