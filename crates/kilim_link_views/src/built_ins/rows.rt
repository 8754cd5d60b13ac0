//! The built-in classes and methods as rows. A class is named by its distance from the first one, a method likewise.

use kilim_program::Qualifier;

/// The type of a parameter or of a result.
#[derive(Clone, Copy)]
pub enum Kind {
    Bool,
    Char,
    Int,
    Long,
    /// An object of a class.
    Object(u8),
    /// An array of such objects.
    Objects(u8),
}

/// A class.
#[derive(Drop)]
pub struct ClassRow<'a> {
    pub name: &'a [u8],
    pub message: bool,
    pub methods: &'a [u8],
}

/// A class of exceptions, which isn't `java/lang/Throwable`.
#[derive(Drop)]
pub struct ExceptionRow<'a> {
    pub name: &'a [u8],
    pub superclass: u8,
    pub methods: &'a [u8],
}

/// A method.
#[derive(Drop)]
pub struct MethodRow<'a> {
    pub name: &'a [u8],
    pub owner: u8,
    pub params: &'a [Kind],
    pub gives: Option<Kind>,
    pub is_static: bool,
    /// Whether it pauses: then it takes the fiber too, in woven form.
    pub pausable: bool,
    pub receiver: Qualifier,
    pub qualifiers: &'a [Qualifier],
}

const OBJECT: u8 = 0;

/// The place of `java/lang/String` behind the first class.
pub const STRING: u8 = 1;

const MESSAGE: u8 = 2;

const TASK: u8 = 4;

const MAILBOX: u8 = 5;

const SYS: u8 = 6;

/// The place of `java/lang/Throwable` behind the first class.
pub const THROWABLE: u8 = 7;

const EXCEPTION: u8 = 8;

const RUNTIME_EXCEPTION: u8 = 9;

const INDEX_EXCEPTION: u8 = 15;

/// The place of `kilim/Fiber` behind the first class.
pub const FIBER: u8 = 18;

/// `java/lang/Object`.
pub const OBJECT_CLASS: ClassRow = ClassRow {
    name: b"java/lang/Object",
    message: false,
    methods: &[0],
};

/// Those behind `java/lang/Object`.
pub const CLASSES: &[ClassRow] = &[
    ClassRow {
        name: b"java/lang/String",
        message: false,
        methods: &[1, 2, 3],
    },
    ClassRow {
        name: b"kilim/Message",
        message: true,
        methods: &[],
    },
    ClassRow {
        name: b"kilim/Pausable",
        message: false,
        methods: &[],
    },
    ClassRow {
        name: b"kilim/Task",
        message: false,
        methods: &[4, 5, 6],
    },
    ClassRow {
        name: b"kilim/Mailbox",
        message: false,
        methods: &[7, 8, 9, 10, 11, 12],
    },
    ClassRow {
        name: b"kilim/Sys",
        message: false,
        methods: &[13, 14, 15, 16, 17, 18, 19],
    },
];

/// The methods of `java/lang/Throwable`.
pub const THROWABLE_METHODS: &[u8] = &[20, 21, 22];

/// The classes of exceptions below `java/lang/Throwable`.
pub const EXCEPTION_CLASSES: &[ExceptionRow] = &[
    ExceptionRow {
        name: b"java/lang/Exception",
        superclass: THROWABLE,
        methods: &[23, 24],
    },
    ExceptionRow {
        name: b"java/lang/RuntimeException",
        superclass: EXCEPTION,
        methods: &[25, 26],
    },
    ExceptionRow {
        name: b"java/lang/ArithmeticException",
        superclass: RUNTIME_EXCEPTION,
        methods: &[27, 28],
    },
    ExceptionRow {
        name: b"java/lang/NullPointerException",
        superclass: RUNTIME_EXCEPTION,
        methods: &[29, 30],
    },
    ExceptionRow {
        name: b"java/lang/NegativeArraySizeException",
        superclass: RUNTIME_EXCEPTION,
        methods: &[31, 32],
    },
    ExceptionRow {
        name: b"java/lang/ClassCastException",
        superclass: RUNTIME_EXCEPTION,
        methods: &[33, 34],
    },
    ExceptionRow {
        name: b"java/lang/ArrayStoreException",
        superclass: RUNTIME_EXCEPTION,
        methods: &[35, 36],
    },
    ExceptionRow {
        name: b"java/lang/IndexOutOfBoundsException",
        superclass: RUNTIME_EXCEPTION,
        methods: &[37, 38],
    },
    ExceptionRow {
        name: b"java/lang/ArrayIndexOutOfBoundsException",
        superclass: INDEX_EXCEPTION,
        methods: &[39, 40],
    },
    ExceptionRow {
        name: b"java/lang/StringIndexOutOfBoundsException",
        superclass: INDEX_EXCEPTION,
        methods: &[41, 42],
    },
];

/// `kilim/Fiber`.
pub const FIBER_CLASSES: &[ClassRow] = &[ClassRow {
    name: b"kilim/Fiber",
    message: false,
    methods: &[43, 44, 45, 46, 47, 48, 49, 50, 51, 52, 53],
}];

/// The classes of exceptions below `java/lang/Throwable`, each of which has two constructors, in their order.
pub const EXCEPTIONS: &[u8] = &[8, 9, 10, 11, 12, 13, 14, 15, 16, 17];

/// The methods before those constructors, in the order of their classes.
pub const METHODS: &[MethodRow] = &[
    MethodRow {
        name: b"<init>",
        owner: OBJECT,
        params: &[],
        gives: None,
        is_static: false,
        pausable: false,
        receiver: Qualifier::Cuttable,
        qualifiers: &[],
    },
    MethodRow {
        name: b"length",
        owner: STRING,
        params: &[],
        gives: Some(Kind::Int),
        is_static: false,
        pausable: false,
        receiver: Qualifier::Safe,
        qualifiers: &[],
    },
    MethodRow {
        name: b"charAt",
        owner: STRING,
        params: &[Kind::Int],
        gives: Some(Kind::Char),
        is_static: false,
        pausable: false,
        receiver: Qualifier::Safe,
        qualifiers: &[Qualifier::Safe],
    },
    MethodRow {
        name: b"equals",
        owner: STRING,
        params: &[Kind::Object(OBJECT)],
        gives: Some(Kind::Bool),
        is_static: false,
        pausable: false,
        receiver: Qualifier::Safe,
        qualifiers: &[Qualifier::Safe],
    },
    MethodRow {
        name: b"<init>",
        owner: TASK,
        params: &[],
        gives: None,
        is_static: false,
        pausable: false,
        receiver: Qualifier::Cuttable,
        qualifiers: &[],
    },
    MethodRow {
        name: b"start",
        owner: TASK,
        params: &[],
        gives: None,
        is_static: false,
        pausable: false,
        receiver: Qualifier::Free,
        qualifiers: &[],
    },
    MethodRow {
        name: b"execute",
        owner: TASK,
        params: &[],
        gives: None,
        is_static: false,
        pausable: true,
        receiver: Qualifier::Cuttable,
        qualifiers: &[],
    },
    MethodRow {
        name: b"<init>",
        owner: MAILBOX,
        params: &[],
        gives: None,
        is_static: false,
        pausable: false,
        receiver: Qualifier::Cuttable,
        qualifiers: &[],
    },
    MethodRow {
        name: b"<init>",
        owner: MAILBOX,
        params: &[Kind::Int],
        gives: None,
        is_static: false,
        pausable: false,
        receiver: Qualifier::Cuttable,
        qualifiers: &[Qualifier::Safe],
    },
    MethodRow {
        name: b"put",
        owner: MAILBOX,
        params: &[Kind::Object(MESSAGE)],
        gives: None,
        is_static: false,
        pausable: false,
        receiver: Qualifier::Safe,
        qualifiers: &[Qualifier::Free],
    },
    MethodRow {
        name: b"putw",
        owner: MAILBOX,
        params: &[Kind::Object(MESSAGE)],
        gives: None,
        is_static: false,
        pausable: true,
        receiver: Qualifier::Safe,
        qualifiers: &[Qualifier::Free],
    },
    MethodRow {
        name: b"get",
        owner: MAILBOX,
        params: &[],
        gives: Some(Kind::Object(MESSAGE)),
        is_static: false,
        pausable: true,
        receiver: Qualifier::Safe,
        qualifiers: &[],
    },
    MethodRow {
        name: b"getnb",
        owner: MAILBOX,
        params: &[],
        gives: Some(Kind::Object(MESSAGE)),
        is_static: false,
        pausable: false,
        receiver: Qualifier::Safe,
        qualifiers: &[],
    },
    MethodRow {
        name: b"print",
        owner: SYS,
        params: &[Kind::Int],
        gives: None,
        is_static: true,
        pausable: false,
        receiver: Qualifier::Safe,
        qualifiers: &[Qualifier::Safe],
    },
    MethodRow {
        name: b"print",
        owner: SYS,
        params: &[Kind::Long],
        gives: None,
        is_static: true,
        pausable: false,
        receiver: Qualifier::Safe,
        qualifiers: &[Qualifier::Safe],
    },
    MethodRow {
        name: b"print",
        owner: SYS,
        params: &[Kind::Object(STRING)],
        gives: None,
        is_static: true,
        pausable: false,
        receiver: Qualifier::Safe,
        qualifiers: &[Qualifier::Safe],
    },
    MethodRow {
        name: b"yield",
        owner: SYS,
        params: &[],
        gives: None,
        is_static: true,
        pausable: true,
        receiver: Qualifier::Safe,
        qualifiers: &[],
    },
    MethodRow {
        name: b"argCount",
        owner: SYS,
        params: &[],
        gives: Some(Kind::Int),
        is_static: true,
        pausable: false,
        receiver: Qualifier::Safe,
        qualifiers: &[],
    },
    MethodRow {
        name: b"arg",
        owner: SYS,
        params: &[Kind::Int],
        gives: Some(Kind::Int),
        is_static: true,
        pausable: false,
        receiver: Qualifier::Safe,
        qualifiers: &[Qualifier::Safe],
    },
    MethodRow {
        name: b"take",
        owner: SYS,
        params: &[Kind::Objects(MESSAGE), Kind::Int],
        gives: Some(Kind::Object(MESSAGE)),
        is_static: true,
        pausable: false,
        receiver: Qualifier::Safe,
        qualifiers: &[Qualifier::Cuttable, Qualifier::Safe],
    },
    MethodRow {
        name: b"<init>",
        owner: THROWABLE,
        params: &[],
        gives: None,
        is_static: false,
        pausable: false,
        receiver: Qualifier::Cuttable,
        qualifiers: &[],
    },
    MethodRow {
        name: b"<init>",
        owner: THROWABLE,
        params: &[Kind::Object(STRING)],
        gives: None,
        is_static: false,
        pausable: false,
        receiver: Qualifier::Cuttable,
        qualifiers: &[Qualifier::Safe],
    },
    MethodRow {
        name: b"getMessage",
        owner: THROWABLE,
        params: &[],
        gives: Some(Kind::Object(STRING)),
        is_static: false,
        pausable: false,
        receiver: Qualifier::Safe,
        qualifiers: &[],
    },
];

/// Those of `kilim/Fiber`.
pub const FIBER_METHODS: &[MethodRow] = &[
    MethodRow {
        name: b"pc",
        owner: FIBER,
        params: &[],
        gives: Some(Kind::Int),
        is_static: false,
        pausable: false,
        receiver: Qualifier::Safe,
        qualifiers: &[],
    },
    MethodRow {
        name: b"down",
        owner: FIBER,
        params: &[],
        gives: Some(Kind::Object(FIBER)),
        is_static: false,
        pausable: false,
        receiver: Qualifier::Safe,
        qualifiers: &[],
    },
    MethodRow {
        name: b"up",
        owner: FIBER,
        params: &[],
        gives: Some(Kind::Int),
        is_static: false,
        pausable: false,
        receiver: Qualifier::Safe,
        qualifiers: &[],
    },
    MethodRow {
        name: b"saveI",
        owner: FIBER,
        params: &[Kind::Int, Kind::Object(FIBER)],
        gives: None,
        is_static: true,
        pausable: false,
        receiver: Qualifier::Safe,
        qualifiers: &[Qualifier::Safe, Qualifier::Safe],
    },
    MethodRow {
        name: b"saveJ",
        owner: FIBER,
        params: &[Kind::Long, Kind::Object(FIBER)],
        gives: None,
        is_static: true,
        pausable: false,
        receiver: Qualifier::Safe,
        qualifiers: &[Qualifier::Safe, Qualifier::Safe],
    },
    MethodRow {
        name: b"saveA",
        owner: FIBER,
        params: &[Kind::Object(OBJECT), Kind::Object(FIBER)],
        gives: None,
        is_static: true,
        pausable: false,
        receiver: Qualifier::Safe,
        qualifiers: &[Qualifier::Safe, Qualifier::Safe],
    },
    MethodRow {
        name: b"place",
        owner: FIBER,
        params: &[Kind::Int, Kind::Object(OBJECT), Kind::Object(FIBER)],
        gives: None,
        is_static: true,
        pausable: false,
        receiver: Qualifier::Safe,
        qualifiers: &[Qualifier::Safe, Qualifier::Safe, Qualifier::Safe],
    },
    MethodRow {
        name: b"restI",
        owner: FIBER,
        params: &[],
        gives: Some(Kind::Int),
        is_static: false,
        pausable: false,
        receiver: Qualifier::Safe,
        qualifiers: &[],
    },
    MethodRow {
        name: b"restJ",
        owner: FIBER,
        params: &[],
        gives: Some(Kind::Long),
        is_static: false,
        pausable: false,
        receiver: Qualifier::Safe,
        qualifiers: &[],
    },
    MethodRow {
        name: b"restA",
        owner: FIBER,
        params: &[],
        gives: Some(Kind::Object(OBJECT)),
        is_static: false,
        pausable: false,
        receiver: Qualifier::Safe,
        qualifiers: &[],
    },
    MethodRow {
        name: b"receiver",
        owner: FIBER,
        params: &[],
        gives: Some(Kind::Object(OBJECT)),
        is_static: false,
        pausable: false,
        receiver: Qualifier::Safe,
        qualifiers: &[],
    },
];
